// The calls on a restored store and an open contact: what is handed from one call to the next beside the store, the opened fields and their lists.
#![tactic(auto)]

use rows::ContactId;

// Whether a store is restored, and which contact is open.
#[derive(Clone, Copy)]
pub enum Mark {
    Fresh,
    Restored,
    Opened(ContactId),
}
