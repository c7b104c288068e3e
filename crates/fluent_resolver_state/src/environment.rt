//! Where variables are looked up.

use crate::locals::Locals;
use fluent_values::FluentArgs;

/// The arguments of the application, if it gave any, or those of a term reference alone.
#[derive(Drop)]
pub enum Environment<'p, 'args, 's, C> {
    Application(Option<&'p FluentArgs<'args, C>>),
    Local(Locals<'p, 's, C>),
}
