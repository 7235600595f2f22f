//! A picture of a run as text: [`svg`] for a browser, [`plain`] for a terminal and for diffs. Both draw the same marks,
//! those of the commands of a [`Window`].
//!
//! A picture as SVG is a list of shapes, which `specs/Layout.antt` gives for each mark and `specs/Head.antt` for what stands
//! above the rows; `specs/Looks.antt` and `specs/Svg.antt` say how shapes are spelled. `specs/Plain.antt` has the picture as
//! plain text. Calls fail where memory runs out and for no other reason.
#![tactic(auto)]

mod bands;
mod drawn;
mod head;
mod lanes;
mod layout;
mod looks;
mod messages;
mod notes;
mod places;
mod plain_text;
mod shape;
mod spelling;
mod window;
mod words;

pub use plain_text::plain;
pub use shape::{BarKind, LineKind, Shape, Spot, TextKind};
pub use spelling::svg;
pub use window::Window;
