use cli_args::read_line;
use replay_script::Replay;
use std::alloc::{AllocError, Global};
use std::test::Fail;

// What is said of words, of which the first is the program's name. There is a blank before each of the others.
fn said_of_words(alloc: Global, words: &str) -> Result<String, AllocError> {
    let mut owned = Vec::new(alloc);
    for word in words.split(' ').skip(1) {
        owned.push(String::from_str(alloc, word)?)?;
    }
    match read_line(&owned) {
        Ok(_) => String::from_str(alloc, ""),
        Err(mistake) => format!(in alloc; "{mistake}"),
    }
}

// What is said of a script, whose lines have `;` between them: why one is the last.
fn said_of_script(alloc: Global, script: &str) -> Result<String, AllocError> {
    let mut replay = Replay::new(alloc)?;
    for line in script.split(';') {
        if let Err(end) = replay.prepare(alloc, line) {
            return format!(in alloc; "{end}");
        }
    }
    String::from_str(alloc, "")
}

// Words, of which the first is the program's name, or a script; and what is said of them.
const SAID: &str = "\
carmuguur|PATH, PORT and a command are missing^\
carmuguur -|PORT and a command are missing^\
carmuguur - 65536 csvq x|PORT must be a number from 0 to 65535 without leading zeros, and is \"65536\"^\
carmuguur - 080 csvq x|PORT must be a number from 0 to 65535 without leading zeros, and is \"080\"^\
carmuguur -  csvq x|PORT must be a number from 0 to 65535 without leading zeros, and is \"\"^\
carmuguur - +1 csvq x|PORT must be a number from 0 to 65535 without leading zeros, and is \"+1\"^\
carmuguur - 0|a command is missing: the commands are csvq QUERY, org-add NAME SECRET, user-set ORG USER SECRET, export ORG USER SECRET QUERY, load ORG USER SECRET OBJECT, demo N, answer, serve [COUNT]^\
carmuguur - 0 Csvq x|unknown command \"Csvq\": the commands are csvq QUERY, org-add NAME SECRET, user-set ORG USER SECRET, export ORG USER SECRET QUERY, load ORG USER SECRET OBJECT, demo N, answer, serve [COUNT]^\
carmuguur - 0 a\nb|unknown command \"a\\nb\": the commands are csvq QUERY, org-add NAME SECRET, user-set ORG USER SECRET, export ORG USER SECRET QUERY, load ORG USER SECRET OBJECT, demo N, answer, serve [COUNT]^\
carmuguur - 0 csvq|too few words: the form is csvq QUERY^\
carmuguur - 0 csvq SELECT Id|too many words: the form is csvq QUERY^\
carmuguur - 0 org-add Acme|too few words: the form is org-add NAME SECRET^\
carmuguur - 0 user-set A B|too few words: the form is user-set ORG USER SECRET^\
carmuguur - 0 export a b c|too few words: the form is export ORG USER SECRET QUERY^\
carmuguur - 0 export a b c d|^\
carmuguur - 0 load a b c|too few words: the form is load ORG USER SECRET OBJECT^\
carmuguur - 0 load a b c d|^\
carmuguur - 0 demo|too few words: the form is demo N^\
carmuguur - 0 demo 5 6|too many words: the form is demo N^\
carmuguur - 0 demo 05|N must be a number from 0 to 10000 without leading zeros, and is \"05\"^\
carmuguur - 0 demo 10001|N must be a number from 0 to 10000 without leading zeros, and is \"10001\"^\
carmuguur - 0 demo 0|^\
carmuguur - 0 answer x|too many words: the form is answer^\
carmuguur - 0 serve|^\
carmuguur - 0 serve 1 2|too many words: the form is serve [COUNT]^\
carmuguur - 0 serve 0|COUNT must be a number from 1 to 18446744073709551615 without leading zeros, and is \"0\"^\
carmuguur - 0 serve 18446744073709551616|COUNT must be a number from 1 to 18446744073709551615 without leading zeros, and is \"18446744073709551616\"^\
carmuguur - 0 serve 01|COUNT must be a number from 1 to 18446744073709551615 without leading zeros, and is \"01\"^\
carmuguur - 0 serve +1|COUNT must be a number from 1 to 18446744073709551615 without leading zeros, and is \"+1\"^\
carmuguur - 0 serve 18446744073709551615|^\
carmuguur store.db 0 csvq x|^\
carmuguur - 0 answer|^\
carmuguur - 0 csvq x|^\
carmuguur - 65535 org-add Acme short|^\
|it isn't a JSON text^\
{\"note\":\"a\"} x|it isn't a JSON text^\
[]|it isn't an object^\
{}|member \"note\" is missing^\
{\"note\":1}|member \"note\" must be a text^\
{\"word\":[]}|member \"word\" isn't known here^\
{\"words\":[],\"note\":\"a\"}|member \"note\" isn't known here^\
{\"words\":[],\"words\":[]}|member \"words\" is there twice^\
{\"words\":\"csvq\"}|member \"words\" must be a list of texts^\
{\"words\":[],\"stdin\":\"\",\"stdinHex\":\"\"}|member \"stdinHex\" is there beside the one in plain text^\
{\"words\":[],\"stdinHex\":\"0\"}|member \"stdinHex\" must be a text of hexadecimal digits, two a byte^\
{\"words\":[],\"moments\":[253402300800]}|member \"moments\" must be a list of whole numbers from 0 to 253402300799^\
{\"words\":[],\"failing\":{\"sink\":[1.5]}}|member \"sink\" must be a list of whole numbers from 0 on^\
{\"words\":[],\"failing\":{\"keeper\":[1]}}|member \"keeper\" isn't known here^\
{\"rows\":[{\"table\":256,\"key\":\"\",\"row\":null}]}|member \"table\" must be a whole number from 0 to 255^\
{\"rows\":[{\"table\":0,\"key\":\"\"}]}|member \"row\" is missing^\
{\"words\":[\"a\"],\"moments\":[253402300799,1.0]}|^\
{\"failing\":{}}|^\
{\"note\":\"a\"};{\"failing\":{\"keeper\":[1]}}|^\
{\"failing\":{\"keeper\":[1]}};{\"failing\":{\"keeper\":[1]}}|^\
{\"words\":[],\"room\":1048577}|member \"room\" must be a whole number from 0 to 1048576^\
{\"failing\":{\"keeper\":[1]}};{\"rows\":[{\"table\":0,\"key\":\"\",\"row\":\"00\"}]}|the keeper failed";

// Whether what a row says is said.
fn is_said(alloc: Global, row: &str) -> Result<bool, AllocError> {
    let (given, wanted) = row.split_once('|').unwrap_or(("", "?"));
    let said = if given.starts_with("carmuguur") {
        said_of_words(alloc, given)?
    } else {
        said_of_script(alloc, given)?
    };
    Ok(said.as_str() == wanted)
}

#[test]
fn says_what_is_wrong(rt: HostRuntime) -> Result<(), Fail> {
    for row in SAID.split('^') {
        assert!(rt; is_said(rt.alloc(), row)?, "{row}");
    }
    Ok(())
}
