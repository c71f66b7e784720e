// The calls by their verbs, and what each leaves to the next. Each fills the room with its answer; nothing where the
// line is none of its own, and then all stays as it was. Line and room stand side by side: each verb reads the one and
// fills the other.
#![tactic(auto)]

mod counters;

ghost use Rattle.std.specs.Prelude.{◌≡◌};
ghost use Rattle.scenario_calls.specs.Calls.{at_start, local_effect, stats_effect, wire_effect, publication_effect};
ghost use Rattle.scenario_calls.specs.Calls.{message_effect, plain_effect, effect_of, Leaves, Answers};

use answer::Room;
use lent::Slots;
use line::reader::Fields;
use publication::Publication;
use scenario_wire::publications;
use statistics::Statistics;
use topography::TopoCounts;

// The local topography counters, the publication, how many numbers the description run has, subscriptions, the octets
// of listeners and sessions, and statistics.
#[derive(Clone, Copy)]
pub struct State {
    pub local: TopoCounts,
    pub held: Option<Publication>,
    pub numbers: usize,
    pub slots: Slots,
    pub tables: [u8; 1280],
    pub statistics: Statistics,
}

impl State {
    // Before the first call: counters 0 and 0, no publication, an empty description run, nothing subscribed, nothing
    // counted.
    pub fn start() -> State
        ensures { result ≡ at_start }
    {
        State {
            local: TopoCounts {
                etb_topo_cnt: 0,
                op_trn_topo_cnt: 0,
            },
            held: None,
            numbers: 0,
            slots: scenario_pd::start(),
            tables: [0; 1280],
            statistics: Statistics::none(),
        }
    }

    // `local ETB OPTRN`
    fn local(&mut self, s: &[u8], out: &mut Room) -> Option<()>
        ensures { Leaves (local_effect self.old s.now) out.old result self.new out.new }
    {
        let mut fields = Fields::behind(s, 5);
        let [etb_topo_cnt, op_trn_topo_cnt] = fields.words::<2>()?;
        fields.end()?;
        self.local = TopoCounts {
            etb_topo_cnt,
            op_trn_topo_cnt,
        };
        out.word(b"ok");
        Some(())
    }

    // `stats`, the verb alone
    fn stats(&mut self, s: &[u8], out: &mut Room) -> Option<()>
        ensures { Leaves (stats_effect self.old s.now) out.old result self.new out.new }
    {
        if s.len() != 5 {
            return None;
        }
        counters::put_statistics(out, &self.statistics);
        Some(())
    }

    // A call over no table.
    fn wire(&mut self, s: &[u8], out: &mut Room) -> Option<()>
        ensures { Leaves (wire_effect self.old s.now) out.old result self.new out.new }
    {
        scenario_wire::answer(s, out)
    }

    // A call over the publication.
    fn publication(&mut self, s: &[u8], out: &mut Room) -> Option<()>
        ensures { Leaves (publication_effect self.old s.now) out.old result self.new out.new }
    {
        publications::answer(&mut self.held, s, out)
    }

    // A call over listeners and sessions.
    fn message_data(&mut self, s: &[u8], out: &mut Room) -> Option<()>
        ensures { Leaves (message_effect self.old s.now) out.old result self.new out.new }
    {
        scenario_md::answer(&mut self.tables, &mut self.statistics, self.local, s, out)
    }

    // By the verb; else one kind of line after another.
    fn plain(&mut self, s: &[u8], out: &mut Room) -> Option<()>
        ensures { Leaves (plain_effect self.old s.now) out.old result self.new out.new }
    {
        if line::is_verb(s, b"local") {
            return self.local(s, out);
        }
        if line::is_verb(s, b"stats") {
            return self.stats(s, out);
        }
        if self.wire(s, out).is_some() {
            return Some(());
        }
        if self.message_data(s, out).is_some() {
            return Some(());
        }
        self.publication(s, out)
    }

    // A line that no call answers is bad, and changes nothing. A further module's verbs are tried where none before
    // answers.
    pub fn answer(&mut self, descriptions: &mut [u32], store: &mut [u8], s: &[u8], out: &mut Room)
        ensures { Answers (effect_of self.old descriptions.old store.old s.now) out.old
            self.new descriptions.new store.new out.new }
    {
        let (slots, statistics) = (&mut self.slots, &mut self.statistics);
        if scenario_pd::answer(slots, statistics, self.local, store, s, out).is_some() {
            return;
        }
        if scenario_data::answer(&mut self.numbers, descriptions, s, out).is_some() {
            return;
        }
        if self.plain(s, out).is_some() {
            return;
        }
        out.word(b"bad line");
    }
}
