// Why a call may refuse: document 01's table, each number under its name.
#![tactic(auto)]

ghost use Rattle.std.specs.Prelude.{◌≡◌};
ghost use Rattle.refusal.specs.Refusal.{number};

// A refusal; document 01's number is its place in the list, from 1 on.
#[derive(Clone, Copy, Debug, PartialEq, Eq)]
pub enum Refusal {
    // more than 32 slots, store not 1432 octets a slot, or a record that says over 1432
    Sizes = 1,
    // shorter than the header
    Short,
    // frame check differs
    FrameCheck,
    // version's high octet is not 1
    Version,
    // type not of this family
    MsgType,
    // datasetLength over its limit, or datagram not as long as header plus padded dataset
    Length,
    // topography
    Topography,
    // no subscription or listener matches
    NoMatch,
    // some match, none finds it fresh
    Stale,
    // slot number too large or slot not in use
    NoSlot,
    // range end not 0 and below its start
    Range,
    // a filter equal in every field is in use
    FilterInUse,
    // no free slot
    NoFreeSlot,
    // publication not due
    NotDue,
    // target too short
    TargetShort,
    // dataset too long
    DatasetLong,
    // session identifier in use
    SessionInUse,
    // no free session
    NoFreeSession,
    // no session of that identifier can take this
    NoSession,
    // URI field without a zero octet
    Uri,
    // dataset id not described
    NotDescribed,
    // nested deeper than 5
    Nesting,
    // description malformed, or over 4,096 numbers
    Description,
    // data end early or are left over
    DataLength,
    // target shorter than the data
    DataTarget,
}

// Document 01's number of a refusal.
impl From<Refusal> for u8 {
    ghost from_gives = { λ r n. n ≡ number r };

    fn from(r: Refusal) -> u8 {
        r as u8
    }
}
