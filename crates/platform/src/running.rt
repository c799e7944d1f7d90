ghost use Rattle.std.specs.Prelude.{◌≡◌, IfSome, map, string_bytes};
ghost use Rattle.commands.specs.Commands.{command_of, used_by};
ghost use Rattle.platform.specs.Promise.{IsStatus, IsUnused, Promise};
ghost use Rattle.platform.specs.Run.{status_in};
ghost use Rattle.platform.specs.Seen.{Seen};

use crate::serving::{serve_answer, serve_door};
use base_io::{Clock, Door, Sink, Source};
use commands::{
    Exporting, Load, OrgAdd, Stop, UserSet, Words, csvq_status, print_csvq, print_demo, print_load,
    print_tables, read_words, store_status,
};
use std::alloc::Global;
use store_abstraction::stands_laws;
use store_kv::Keeper;

// The status of a process that served.
fn status_of(ended: Result<u8, Stop>) -> u8
    ensures { result ≡ status_in ended }
{
    match ended {
        Ok(status) => status,
        Err(stop) => stop.status(),
    }
}

/// Does what the words say, and returns the process's status.
///
/// | Words | What is done |
/// |---|---|
/// | `csvq QUERY` | reads a CSV text from the source, and writes what a query finds in it |
/// | `org-add NAME SECRET` | makes an organisation, and writes its id and its administrator's |
/// | `user-set ORG USER SECRET` | gives a user a new secret, makes it an active administrator, and writes the two ids |
/// | `export ORG USER SECRET QUERY` | writes the rows of a user's query as lines of CSV |
/// | `load ORG USER SECRET OBJECT` | makes or changes a record for each row of a CSV text, which comes from the source, and writes what became of each |
/// | `demo N` | watches the change of a field's type over N records, from 0 to 10,000, in tables of its own |
/// | `answer` | answers the HTTP messages of one connection, which come from the source, to the sink |
/// | `serve`, `serve COUNT` | answers the HTTP messages of the first COUNT connections of the door, or of all that come; without COUNT of the first 2^64 - 1 |
///
/// | Status | When |
/// |---|---|
/// | 0 | the command was done; `csvq` and `load` have read their input to its end |
/// | 64 | the words are no command; nothing is read or written |
/// | 65 | the query, the input or an argument is refused; one line says so |
/// | 71 | out of memory; of `answer` and `serve` only before a message is read, of `load` also between two batches |
/// | 72 | the keeper failed; as 71 |
/// | 73, 74 | the sink failed; the source failed |
/// | 75 | the door failed: it couldn't be opened, or brought no further connection |
/// | 76 | the tables are damaged |
/// | 77 | the tables are of a version that isn't known here |
///
/// While the keeper is trusted: after 0, 65 and 73, of `answer` also after 74, and of `serve` after 75, the tables are what the command is to leave. Of `load` they are
/// what its lines tell after 71 and 72, and what these and the batch tell whose lines were being written after 73; if they were damaged,
/// rows may have been loaded before 76. After every other status they are what they were.
pub fn run<K: Keeper, D: Door, S: Source, W: Sink, C: Clock>(
    alloc: Global,
    words: &[String],
    keeper: &mut K,
    door: &mut D,
    source: &mut S,
    sink: &mut W,
    clock: &mut C,
) -> u8
    ensures status { IsStatus (command_of (map string_bytes words.now)) result }
    ensures promise { let seen : K → D → S → W → C → Seen = λ k d s w c. record {
      keeper = K.state k;
      door = D.held d;
      door_faults = D.faults d;
      line_faults = D.line_faults d;
      left = S.left s;
      read_faults = S.faults s;
      written = W.written w;
      write_faults = W.faults w;
      coming = C.coming c;
    } in IfSome (command_of (map string_bytes words.now)) (λ command.
        Promise command (seen keeper.old door.old source.old sink.old clock.old) (seen keeper.new door.new source.new sink.new clock.new) result) }
    ensures unused { IsUnused (used_by (command_of (map string_bytes words.now)) result)
        keeper.old keeper.new door.old door.new source.old source.new sink.old sink.new clock.old clock.new }
    ensures stays { S.stays source.old source.new × W.stays sink.old sink.new }
{
    stands_laws();
    match read_words(words) {
        Words::Csvq(query) => {
            let now = clock.now();
            csvq_status(print_csvq(alloc, query, now, source, sink))
        }
        Words::OrgAdd(name, secret) => {
            store_status(print_tables(alloc, &OrgAdd { name, secret }, keeper, sink))
        }
        Words::UserSet(org, user, secret) => {
            let work = UserSet { org, user, secret };
            store_status(print_tables(alloc, &work, keeper, sink))
        }
        Words::Export(org, user, secret, query) => {
            let now = clock.now();
            let work = Exporting {
                org,
                user,
                secret,
                query,
                now,
            };
            store_status(print_tables(alloc, &work, keeper, sink))
        }
        Words::Load(org, user, secret, object) => {
            let load = Load {
                org,
                user,
                secret,
                object,
            };
            status_of(print_load(alloc, &load, keeper, source, sink, clock))
        }
        Words::Demo(count) => {
            let now = clock.now();
            status_of(print_demo(alloc, count, now, sink))
        }
        Words::Answer => status_of(serve_answer(alloc, keeper, source, sink, clock)),
        Words::Serve(count) => status_of(serve_door(alloc, keeper, door, clock, count)),
        Words::Other => 64,
    }
}
