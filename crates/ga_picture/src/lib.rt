//! Pictures of the kept events of a chip: a line down for each node, with marks for its own events and arrows for passes, in the
//! order in which the events were made. `ga144 draw`: a session's commands, carried out without an answer, and at their end its
//! picture.
#![tactic(auto)]

mod follow;
mod independent;
mod item;
mod lines;
mod marks;
mod placing;
mod race_marks;
mod run;
mod runs;
mod shade;
mod silent;
mod text;
mod view;

pub use follow::run_silent_session;
pub use independent::IndependentNode;
pub use item::PictureItem;
pub use placing::{Drawing, DrawnShape, PictureRow, lay_out_drawing};
pub use race_marks::{RaceMark, RacingStep};
pub use run::draw_session;
pub use shade::{Shade, find_causes, find_event_shades};
pub use silent::SilentSession;
pub use text::format_svg;
pub use view::{PictureStep, PictureView, draw_lab_history, picture_svg_text};
