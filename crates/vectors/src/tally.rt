// The kinds of cases, and how many of each there were.

// What a case compares.
#[derive(Clone, Copy, PartialEq, Eq)]
pub enum Kind {
    Leb128Read,
    Leb128Written,
    Name,
    Card,
    Device,
    Queued,
    Courier,
    Contact,
    Store,
    Sheet,
}

impl Kind {
    // The kind with this letter.
    // Kept: the new form is no plainer: TryFrom would name an error where None says all.
    pub(super) fn from_letter(letter: &[u8]) -> Option<Kind> {
        match letter {
            b"L" => Some(Kind::Leb128Read),
            b"W" => Some(Kind::Leb128Written),
            b"N" => Some(Kind::Name),
            b"C" => Some(Kind::Card),
            b"D" => Some(Kind::Device),
            b"Q" => Some(Kind::Queued),
            b"K" => Some(Kind::Courier),
            b"P" => Some(Kind::Contact),
            b"S" => Some(Kind::Store),
            b"T" => Some(Kind::Sheet),
            _ => None,
        }
    }
}

// How many cases of a kind there were, and how many of them came out different.
#[derive(Clone, Copy)]
struct Tally {
    cases: u64,
    different: u64,
}

// One for each kind.
// Kept: the new form is no plainer: an array of them would be indexed by a number for each kind.
#[derive(Clone, Copy)]
pub struct Tallies {
    read: Tally,
    written: Tally,
    names: Tally,
    cards: Tally,
    devices: Tally,
    queued: Tally,
    courier: Tally,
    contacts: Tally,
    stores: Tally,
    sheets: Tally,
}

impl Tally {
    fn new() -> Tally {
        Tally {
            cases: 0,
            different: 0,
        }
    }

    fn with(self, same: bool) -> Tally {
        let cases = std::num::wrapping_add_u64(self.cases, 1);
        if same {
            return Tally {
                cases,
                different: self.different,
            };
        }
        Tally {
            cases,
            different: std::num::wrapping_add_u64(self.different, 1),
        }
    }

    fn print(self, rt: &impl Print, letter: char) {
        let cases = self.cases;
        let different = self.different;
        let _ = println!(rt; "{letter} {cases} cases, {different} different");
    }
}

impl Tallies {
    pub(super) fn new() -> Tallies {
        Tallies {
            read: Tally::new(),
            written: Tally::new(),
            names: Tally::new(),
            cards: Tally::new(),
            devices: Tally::new(),
            queued: Tally::new(),
            courier: Tally::new(),
            contacts: Tally::new(),
            stores: Tally::new(),
            sheets: Tally::new(),
        }
    }

    pub(super) fn with(mut self, kind: Kind, same: bool) -> Tallies {
        match kind {
            Kind::Leb128Read => self.read = self.read.with(same),
            Kind::Leb128Written => self.written = self.written.with(same),
            Kind::Name => self.names = self.names.with(same),
            Kind::Card => self.cards = self.cards.with(same),
            Kind::Device => self.devices = self.devices.with(same),
            Kind::Queued => self.queued = self.queued.with(same),
            Kind::Courier => self.courier = self.courier.with(same),
            Kind::Contact => self.contacts = self.contacts.with(same),
            Kind::Store => self.stores = self.stores.with(same),
            Kind::Sheet => self.sheets = self.sheets.with(same),
        }
        self
    }

    pub(super) fn print(self, rt: &impl Print) {
        self.read.print(rt, 'L');
        self.written.print(rt, 'W');
        self.names.print(rt, 'N');
        self.cards.print(rt, 'C');
        self.devices.print(rt, 'D');
        self.queued.print(rt, 'Q');
        self.courier.print(rt, 'K');
        self.contacts.print(rt, 'P');
        self.stores.print(rt, 'S');
        self.sheets.print(rt, 'T');
    }
}
