// What a built-in predicate offers.

use cq_term::walk::Pair;

/// One way in which a predicate holds: pairs of terms that are to be unified, in this order.
#[derive(Drop)]
pub struct Alternative {
    pub pairs: Vec<Pair>,
}
