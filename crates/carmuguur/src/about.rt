//! What the program says of itself.

const VERSION: &str = "carmuguur 0.1.0";

const USAGE: &str = "usage: carmuguur PATH PORT COMMAND..

PATH is where the tables are: - for memory, or a file. PORT is a number from 0 to 65535, which serve alone uses.

Commands:
  csvq QUERY           answers a query over the CSV text on standard input
  org-add NAME SECRET  makes an organisation, and writes its id and its administrator's
  user-set ORG USER SECRET
                       gives a user a new secret, as one whose key is lost, makes it an active administrator, and writes the two ids
  export ORG USER SECRET QUERY
                       writes the rows of a user's query as CSV
  load ORG USER SECRET OBJECT
                       makes or changes a record for each row of the CSV text on standard input, and writes a line for each
  demo N               watches the change of a field's type over N records, from 0 to 10000, in tables of its own
  answer               answers the HTTP requests of one connection, from standard input to standard output
  serve [COUNT]        answers the HTTP requests of the next COUNT connections at 127.0.0.1:PORT, or of all

A SECRET is the secret itself, or env:NAME for the value of that variable, or file:PATH for the first line of that file. Other users
of the machine can see the words of a running command, so the secret itself is best not among them.

With CARMUGUUR_LOG=1 in the environment serve says each reply in a line on standard error.
With CARMUGUUR_QUIET=1 load doesn't say there how many rows it has done.

A refusal is a line on standard output, with status 65. To keep no file of it:
  carmuguur - 0 csvq QUERY < in.csv > out.csv || rm out.csv

Statuses: 0 done; 64 wrong words; 65 refused; 71 out of memory; 72 the store failed; 73 standard output failed;
74 standard input failed; 75 the port failed; 76 the store is damaged; 77 its version is unknown.";

/// What the program is asked to say of itself, if one word alone asks for that.
pub(crate) fn asked_text(words: &[String]) -> Option<&'static str> {
    let [word] = words else {
        return None;
    };
    match word.as_str() {
        "-h" | "--help" | "help" => Some(USAGE),
        "--version" => Some(VERSION),
        _ => None,
    }
}
