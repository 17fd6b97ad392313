// Scenes of the lesson: those in which nodes are made and nothing else is asked, the one in which a glyph is opened by path, the one in which
// a create stops half way, the one in which a log is edited in the middle, and the one in which two folders have one name.
#![tactic(auto)]

pub mod log;
pub mod made;
pub mod stops;
pub mod walks;
pub mod weights;
