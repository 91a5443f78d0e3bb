//! The program `webgraph`: it collects the words after its name, runs their job over the folder's files and the
//! standard streams, and ends with the status's code. All that is proved of it stands in `wg_cli`; here it is only put
//! together.
#![tactic(auto)]

use std::env;
use std::io::ErrorKind;
use std::process::ExitCode;
use wg_cli::{Status, Words, report, run};
use wg_io::{FolderDepot, StdSink};

// The words after the program's name, or why there are none: a word that is not UTF-8 is no word of a command.
fn words(rt: &HostRuntime) -> Result<Words, Status> {
    let mut args = match env::args(rt) {
        Ok(args) => args,
        Err(error) => match error.kind() {
            ErrorKind::OutOfMemory => return Err(Status::Memory),
            _ => return Err(Status::Usage),
        },
    };
    let _ = args.next();
    let mut words = Words::new(rt.alloc());
    for word in args {
        if words.push(word.as_str()).is_err() {
            return Err(Status::Memory);
        }
    }
    Ok(words)
}

// Runs the job of the words. If there are none, it says on standard error why.
fn main(rt: HostRuntime) -> ExitCode {
    let mut err = StdSink::new(rt.stderr());
    let status = match words(&rt) {
        Ok(words) => {
            let mut depot = FolderDepot::new(&rt);
            let mut out = StdSink::new(rt.stdout());
            run(rt.alloc(), &words, &mut depot, &mut out, &mut err)
        }
        Err(status) => {
            report(&mut err, &None, 0, status);
            status
        }
    };
    ExitCode::from(status.code())
}
