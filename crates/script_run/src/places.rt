//! The places of the nodes that a script makes.
ghost use Rattle.std.specs.Prelude.{◌≡◌, ◌+◌, ◌≤◌, ◌++◌, [], ◌∷◌, length, IfOk, OnOk};
ghost use Rattle.dtx_values.specs.Limits.{node_limit};
ghost use Rattle.run_rules.specs.Scripts.{names_asked, places_from, places_of};

use dtx_values::{Duplicate, Listing, Name, Names};
use redo_record::{Place, Places};
use script_read::Command;
use std::alloc::{AllocError, Global};

/// Adds the name of the node that a command makes, if it makes one.
fn take_name(alloc: Global, names: &mut Vec<Name>, command: &Command) -> Result<(), AllocError>
    ensures { OnOk result (names.new.items ≡ names.old.items ++ names_asked (command.now ∷ [])) }
{
    match command {
        Command::Node {
            name,
            strength: _strength,
            links: _links,
            undo: _undo,
        } => {
            names.push(name.copy(alloc)?)?;
            Ok(())
        }
        _ => Ok(()),
    }
}

/// The names of the nodes that these commands make, in the order of their numbers. Fails where memory runs out.
#[tactic(auto, using(crate::proofs::PlaceLemmas::names_more))]
pub fn node_names(alloc: Global, commands: &[Command]) -> Result<Names, AllocError>
    ensures { IfOk result (λ names. names ≡ names_asked commands.now) }
{
    let mut names = Vec::new(alloc);
    for command in commands {
        take_name(alloc, &mut names, command)?;
    }
    Ok(Listing::of(names))
}

/// Adds the place of the node that a command makes, if it makes one: the next one.
fn take_place(
    alloc: Global,
    names: &Names,
    places: &mut Vec<Place>,
    command: &Command,
) -> Result<(), AllocError>
    requires { length places.old.items ≤ node_limit }
    ensures { OnOk result (places.new.items ≡ places.old.items ++ places_from names.now (length places.old.items + 1) (command.now ∷ [])) }
{
    match command {
        Command::Node {
            name: _name,
            strength,
            links,
            undo,
        } => {
            let names = names.copy(alloc)?;
            places.push(Place {
                names,
                number: places.len() as u8 + 1,
                strength: *strength,
                links: *links,
                undo: *undo,
            })?;
            Ok(())
        }
        _ => Ok(()),
    }
}

/// The places of the nodes that these commands make, all of which know these names. Fails where memory runs out.
#[tactic(auto, using(crate::proofs::PlaceLemmas::place_steps))]
fn placed(alloc: Global, names: &Names, commands: &[Command]) -> Result<Places, AllocError>
    requires { length (names_asked commands.now) ≤ node_limit }
    ensures { IfOk result (λ places. places ≡ places_from names.now 1 commands.now) }
{
    let mut places = Vec::new(alloc);
    for command in commands {
        take_place(alloc, names, &mut places, command)?;
    }
    Ok(Listing::of(places))
}

/// The places of the nodes that these commands make, in the order of their numbers. Fails where memory runs out.
pub fn places(alloc: Global, commands: &[Command]) -> Result<Places, AllocError>
    requires { length (names_asked commands.now) ≤ node_limit }
    ensures { IfOk result (λ places. places ≡ places_of commands.now) }
{
    let names = node_names(alloc, commands)?;
    placed(alloc, &names, commands)
}
