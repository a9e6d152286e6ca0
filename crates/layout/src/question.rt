// The questions of documents 01 (1 to 44) and 02 (45 to 58), by name: what is answered where the answer to the question is no.
// Each has the document's number, by which C, the programs and the definitions know it. `specs/Questions.antt` has the same numbers, and the same
// names in other case: NAME_LENGTH is NameLength.

ghost use Rattle.std.specs.Prelude.{◌≡◌};
ghost use Rattle.layout.specs.Questions.{number_of};

#[derive(Clone, Copy, Debug, PartialEq, Eq)]
pub enum Question {
    // entry 0 a device, and every later kind 1 to 3 and not below the one before
    Order = 1,
    // start + length within the run
    Bounds = 2,
    // version 3
    Version = 3,
    // field wholly in the row (a card's field in the card)
    Field = 4,
    // flag 0 or 1
    Flag = 5,
    // role, mode, verification, dir or kind a listed code
    Code = 6,
    // caps bits 2 to 7 clear
    Caps = 7,
    // name length at most 48
    NameLength = 8,
    // name UTF-8
    NameUtf8 = 9,
    // card used up
    CardEnd = 10,
    // copies 1 to 16 and lifetime 60 to 10,080
    CourierConfig = 11,
    // LEB128 minimal, at most 2^32 - 1
    Leb128 = 12,
    // sealed length allowed
    SealedLength = 13,
    // carried copies not 0
    CarriedCopies = 14,
    // carried expiry not 0
    CarriedExpiry = 15,
    // nothing after the last field
    RowEnd = 16,
    // at most one chain not superseded
    ChainsCurrent = 17,
    // chain gens distinct
    ChainsGens = 18,
    // skipped (gen, idx) distinct
    SkippedKeys = 19,
    // at most 500 skipped
    SkippedCount = 20,
    // peer_acked at most sent_msgno
    PeerAcked = 21,
    // unacked strictly rising, from 1 to sent_msgno
    Unacked = 22,
    // above canonical from contiguous + 2
    Above = 23,
    // expired canonical from 1, none above sent_msgno
    Expired = 24,
    // contact below next_contact
    ContactBelowNext = 25,
    // contact new
    ContactNew = 26,
    // queued row's contact restored
    QueuedContact = 27,
    // its msgno 1 to sent_msgno
    QueuedMsgno = 28,
    // not in unacked
    QueuedUnacked = 29,
    // (contact, msgno) new
    QueuedNew = 30,
    // depositor below next_contact
    Depositor = 31,
    // slot new
    SlotNew = 32,
    // slot below 2^64 - 1
    SlotBelowLast = 33,
    // store restored, contact open, and the store handed in passes
    Store = 34,
    // contact in the store
    ContactStored = 35,
    // lists long enough, counts within them
    Lists = 36,
    // 1 <= from <= to
    Range = 37,
    // the resulting ranges fit
    RangesFit = 38,
    // sent_msgno below 2^32 - 1
    MsgnoLeft = 39,
    // output long enough
    Output = 40,
    // letter, field count and LF right
    Line = 41,
    // decimals without leading zeros, within width
    Decimal = 42,
    // blob of digit pairs
    Blob = 43,
    // at most 61,440 blob bytes, 512 lines
    SheetSize = 44,
    // the object's epoch and kind
    Object = 45,
    // chunk not empty, within the object; no count past it; progress at most what was sent
    ObjectBounds = 46,
    // chunk continues or repeats what is stored
    ChunkFit = 47,
    // an S line with decimals within their widths
    SLine = 48,
    // sum at most 2^64 - 1
    Sum = 49,
    // peer_read at most sent_msgno
    PeerRead = 50,
    // slot below a version 4 next_slot
    SlotBelowNext = 51,
    // next_slot not lost by a conversion back
    SlotLost = 52,
    // bounds of the window in order
    Window = 53,
    // at most eight chains
    ChainsCount = 54,
    // the ticket's change count is the present one
    Ticket = 55,
    // change count below 2^64 - 1
    Changes = 56,
    // the caller has the right to this call
    Rights = 57,
    // a decimal from 0 to 12, and then LF
    Records = 58,
}

impl Question {
    // The number that the documents give it.
    pub fn number(self) -> u8
        ensures { result ≡ number_of self }
    {
        // Kept: the new form is no plainer: a match would give each number a second time.
        self as u8
    }
}
