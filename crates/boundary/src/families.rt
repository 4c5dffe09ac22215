// The families of the exported calls; that of floats is tent's.
use layers::{Limit, Pair};
use span::Span;
use tent::Tent;

pub(crate) type TentSpan = Pair<Tent, Span>;

pub(crate) type LimitedTentSpan = Limit<TentSpan>;
