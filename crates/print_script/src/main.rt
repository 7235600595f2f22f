//! `print_script` reads a script from standard input and prints its commands, one a line, with each node by its number;
//! or the line of the first bad command, and why it is bad. It runs nothing.
#![tactic(auto)]

mod lines;

use dtx_ports::{ReadPort, read_whole};
use dtx_values::SCRIPT_LIMIT;
use lines::line_of;
use script_read::read_script;
use std::io;
use std::process::ExitCode;

fn main(rt: HostRuntime) -> io::Result<ExitCode> {
    let alloc = rt.alloc();
    let mut source = ReadPort::new(rt.reader());
    let Ok(bytes) = read_whole(alloc, &mut source, SCRIPT_LIMIT) else {
        return Ok(ExitCode::from(2));
    };
    match read_script(alloc, &bytes) {
        Ok(commands) => {
            for command in commands.as_slice() {
                println!(rt; "{}", line_of(alloc, command)?)?;
            }
            Ok(ExitCode::from(0))
        }
        Err(error) => {
            println!(rt; "{error}")?;
            Ok(ExitCode::from(1))
        }
    }
}
