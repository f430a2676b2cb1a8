// Scripts that are played and told of, by themselves or beside a plan.

pub mod beside;
pub mod reported;
