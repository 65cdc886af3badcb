//! The program `msq`: it runs schedules, judges histories, does jobs and posts letters, as its words ask for.
#![tactic(auto)]

mod causes;
mod finds;
mod forms;
mod held;
mod kinds;
mod notes;
mod options;
mod program;
mod progress;
mod stands;
mod starts;
mod tips;

use program::Terminals;
use std::io::IsTerminal;
use std::process::ExitCode;

fn main(rt: HostRuntime) -> ExitCode {
    let terminals = Terminals {
        input: rt.stdin().is_terminal(),
        output: rt.stdout().is_terminal(),
        error: rt.stderr().is_terminal(),
    };
    ExitCode::from(program::run_program(&rt, terminals))
}
