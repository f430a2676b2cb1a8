// What an input of a script or of policies stands for, or the refusal of it.

pub mod policies;
pub mod script;
pub mod update;
