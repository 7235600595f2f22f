//! The link that a statement at a live branch waits for.
ghost use Rattle.std.specs.Prelude.{◌≡◌};
ghost use Rattle.std.specs.Option.{option_copied};
ghost use Rattle.node_rules.specs.Client.{waits_on as waits_on_of, waited_link as waited_link_of};

use crate::children::link_at;
use node_rules::{Going, Waits};
use session_tree::Live;

fn waits_on<'a>(live: &'a Live, waits: &'a Waits) -> &'a [u8]
    ensures { result.now ≡ waits_on_of live.now waits.now }
{
    match waits {
        Waits::ForOpened(link) => link.as_bytes(),
        Waits::ForReply(number) => link_at(live, *number),
    }
}

/// The link that a branch's statement waits for; empty where none waits.
pub fn waited_link<'a>(live: &'a Live, going: Option<&'a Going>) -> &'a [u8]
    ensures { result.now ≡ waited_link_of live.now (option_copied going.entry) }
{
    match going {
        None => &[],
        Some(going) => waits_on(live, &going.waits),
    }
}
