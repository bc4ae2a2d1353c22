/// An order with its reply.
#[derive(Clone, Copy, Drop)]
pub struct Answer<O, R> {
    pub order: O,
    pub reply: R,
}
