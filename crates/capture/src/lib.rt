// The lines of a capture: a head with the local counters, then one PD frame a line.
#![tactic(auto)]

ghost use Rattle.std.specs.Prelude.{◌≡◌, true, ◌&&◌, ◌+◌, ◌≤◌, length};
ghost use Rattle.capture.specs.Frame.{space_at, digits_at, number_at, has_pair, is_head, head_of, is_datagram, is_frame, Reads};

use topography::TopoCounts;

// A PD frame; its datagram has so many octets.
#[derive(Clone, Copy, Debug, PartialEq, Eq)]
pub struct Frame {
    pub sender: u32,
    pub destination: u32,
    pub time: u64,
    // How many, and no slice: the octets stand in the caller's buffer, of fixed size, which `Reads` names.
    pub octets: usize,
}

// The number that 8 digits write at a place, which stands beside the line since `digits_at` and `number_at` take both.
fn word_at(s: &[u8], at: usize) -> u32
    requires at_in_bounds { at + 8 ≤ length s.now }
    requires s_value { digits_at 8 at s.now ≡ true }
    ensures { result ≡ number_at 8 at s.now }
{
    hexadecimal::number(&s[at..at + 8]) as u32
}

// Two fields of 8 digits at the front of a line, a single space between.
fn has_pair(s: &[u8]) -> bool
    requires { 17 ≤ length s.now }
    ensures { result ≡ has_pair s.now }
{
    hexadecimal::is_hex(&s[0..8]) && s[8] == b' ' && hexadecimal::is_hex(&s[9..17])
}

// Line 1 is of the form.
fn is_head(s: &[u8]) -> bool
    ensures { result ≡ is_head s.now }
{
    s.len() == 17 && has_pair(s)
}

// 0 to 2,944 digits, an even number.
fn is_datagram(digits: &[u8]) -> bool
    ensures { result ≡ is_datagram digits.now }
{
    digits.len() <= 2944 && digits.len() % 2 == 0 && hexadecimal::is_hex(digits)
}

// Sender, destination and time, a single space behind each.
fn has_front(s: &[u8]) -> bool
    requires { 35 ≤ length s.now }
    ensures { result ≡ (has_pair s.now && (space_at 17 s.now && (digits_at 16 18 s.now && space_at 34 s.now))) }
{
    has_pair(s) && s[17] == b' ' && hexadecimal::is_hex(&s[18..34]) && s[34] == b' '
}

// Sender, destination, time, datagram; single spaces between.
#[tactic(auto, using(crate::proofs::Frames::form))]
fn is_frame(s: &[u8]) -> bool
    ensures { result ≡ is_frame s.now }
{
    if s.len() < 35 {
        return false;
    }
    has_front(s) && is_datagram(&s[35..])
}

// The local counters that line 1 gives; none where it has another form.
pub fn read_head(s: &[u8]) -> Option<TopoCounts>
    ensures { result ≡ head_of s.now }
{
    if !is_head(s) {
        return None;
    }
    Some(TopoCounts {
        etb_topo_cnt: word_at(s, 0),
        op_trn_topo_cnt: word_at(s, 9),
    })
}

// The frame of a further line, its datagram into the buffer's first octets. A line of another form gives none and
// leaves the buffer as it was.
#[tactic(auto, using(crate::proofs::Frames::frame_parts))]
pub fn read_frame(s: &[u8], buffer: &mut [u8; 1472]) -> Option<Frame>
    ensures { Reads s.now buffer.old result buffer.new }
{
    if !is_frame(s) {
        return None;
    }
    hexadecimal::decode(&s[35..], buffer);
    Some(Frame {
        sender: word_at(s, 0),
        destination: word_at(s, 9),
        time: hexadecimal::number(&s[18..34]),
        octets: (s.len() - 35) / 2,
    })
}
