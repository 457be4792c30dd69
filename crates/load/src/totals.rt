// What the calls of a load came to.
use calls::Reply;

#[derive(Clone, Copy, Default)]
pub struct Totals {
    pub actions: u64,
    pub refusals: u64,
}

impl Totals {
    // One reply more.
    pub fn add(&mut self, reply: Reply) {
        let refusal = records::refusal_number(reply.refusal);
        self.actions = self.actions.saturating_add(reply.actions as u64);
        self.refusals = self.refusals.saturating_add(u64::from(refusal));
    }
}
