//! A command of the script, and the order that it gives to the network or to a disk.
ghost use Rattle.std.specs.Prelude.{◌≡◌, OnOk, IfOk};
ghost use Rattle.run_rules.specs.Data.commands as script;
ghost use Rattle.run_rules.specs.Facts.{command_at as command_at_of, ordered};
ghost use Rattle.world_parts.specs.Orders.{how_as};

use block_disk::How as LeftBy;
use net_bag::{Bag, LoseNext};
use script_read::{Command, How};
use std::alloc::{AllocError, Global};

/// The command of a number, or `none` where there is none.
pub fn command_at<'a>(commands: &'a [Command], number: u32, none: &'a Command) -> &'a Command
    requires { none.now ≡ script.ShowBook }
    ensures { result.now ≡ command_at_of commands.now number }
{
    match number.checked_sub(1) {
        None => none,
        Some(place) => match commands.get(place as usize) {
            None => none,
            Some(command) => command,
        },
    }
}

/// The order of LOSE NEXT is given to the network. Fails where memory runs out.
pub fn order_net(net: &mut Bag, command: &Command) -> Result<(), AllocError>
    ensures { OnOk result (net.new ≡ ordered net.old command.now) }
{
    match command {
        Command::LoseNext { kind, from, to } => net.lose_next(LoseNext {
            kind: *kind,
            from: *from,
            to: *to,
        }),
        _ => Ok(()),
    }
}

/// What a stop leaves of a write. Fails where memory runs out.
pub fn left_by(alloc: Global, how: &How) -> Result<LeftBy, AllocError>
    ensures { IfOk result (λ left. how_as left ≡ how.now) }
{
    match how {
        How::Keep(count) => Ok(LeftBy::Keep(*count)),
        How::Leave(bytes) => Ok(LeftBy::Leave(Vec::from_slice(alloc, bytes.as_slice())?)),
    }
}
