// The station's phases, what it can hear, how it is set, and its table (RULES, The station): from a phase and what was heard to
// what is done. Signals and messages have one spelling everywhere: MR_e is MrE, or mr_e in a name of more words.
#![tactic(auto)]

ghost use Rattle.std.specs.Prelude.{false, ◌≡◌};
ghost use Rattle.table.specs.Rows.{on_mr_e, on_mr_d, on_cr_d, on_cr_e, start_act, signal_act, initial_act, row_signal, row_act, tone_act, judging_row, taking_row, agreeing_row};
ghost use Rattle.table.specs.Promises.{TellsCarried, TellsNumber, TellsOver, TellsMode, TellsAct};

// A phase with what it carries: the time it was entered (milliseconds), and where an MS was sent or accepted the number of the wish
// sent and whether ACK was asked. The rules' state has 0 for no wish (The station 1), so its number is no Option.
#[derive(Clone, Copy)]
pub enum Phase {
    Initial(u64),
    AskedE(u64),
    AskedD(u64),
    ListsE(u64),
    ListsD(u64),
    Counter(u64),
    Listed(u64),
    Traded(u64),
    Pair(u64),
    Half(u64),
    Proposed(u64, u8, bool),
    Mode(u64, u8, bool),
}

// The station's state.
#[derive(Clone, Copy)]
pub struct State {
    pub phase: Phase,
}

// A phase by its name alone, with a number for each.
#[derive(Clone, Copy, Debug, PartialEq, Eq)]
pub enum Kind {
    AtInitial = 0,
    AtAskedE = 1,
    AtAskedD = 2,
    AtListsE = 3,
    AtListsD = 4,
    AtCounter = 5,
    AtListed = 6,
    AtTraded = 7,
    AtPair = 8,
    AtHalf = 9,
    AtProposed = 10,
    AtMode = 11,
}

// A phase's name, and what it carries; where it carries no wish and no ACK, 0 and false.
#[derive(Clone, Copy)]
pub struct Carried {
    pub kind: Kind,
    pub entry: u64,
    pub wish: u8,
    pub ack: bool,
}

// A signal, heard or sent.
#[derive(Clone, Copy)]
pub enum Signal {
    MrE,
    MrD,
    CrE,
    CrD,
}

// What a transaction begins with: a signal or a message.
#[derive(Clone, Copy)]
pub enum Start {
    MrE,
    MrD,
    CrE,
    CrD,
    Ms,
    Cl,
    Clr,
}

// What to answer on MR_e.
#[derive(Clone, Copy)]
pub enum OnMrE {
    Ms,
    MrD,
    CrD,
}

// What to answer on CR_d.
#[derive(Clone, Copy)]
pub enum OnCrD {
    Cl,
    Clr,
}

// What to answer on CR_e: the same as on CR_d, or CR_d.
#[derive(Clone, Copy)]
pub enum OnCrE {
    AsOnCrD,
    CrD,
}

// What to answer on MR_d when MR_e was asked.
#[derive(Clone, Copy)]
pub enum OnMrD {
    Ms,
    CrD,
}

// How the station is set: what it offers, whether it asks for ACK(1), and what it answers.
#[derive(Clone, Copy)]
pub struct Settings {
    pub v8: bool,
    pub short_v8: bool,
    pub ack: bool,
    pub on_mr_e: OnMrE,
    pub on_cr_d: OnCrD,
    pub on_cr_e: OnCrE,
    pub on_mr_d: OnMrD,
}

// What comes to the table: a start, a signal, a message by its type, the answer tone, or what is spoilt.
#[derive(Clone, Copy)]
pub enum Heard {
    Start(Start),
    Signal(Signal),
    Ms,
    Cl,
    Clr,
    Ack1,
    Ack2,
    Nak,
    AnswerTone,
    Spoilt,
}

// What follows when a list was heard and stored: the chosen MS; a CL and the chosen MS; a CL; nothing.
#[derive(Clone, Copy)]
pub enum After {
    ThenMs,
    ThenClMs,
    ThenCl,
    ThenHalf,
}

// What is done.
#[derive(Clone, Copy)]
pub enum Act {
    NoRow,
    SendSignal(Signal),
    CounterMrD,
    Propose,
    SendCl,
    SendClr,
    PairClr,
    Take(After),
    Judge,
    Agree,
    GiveUp,
    SendNak1,
}

// A row of the table: what is done when each thing is heard that some phase but Initial and Mode acts on.
#[derive(Clone, Copy)]
struct Row {
    mr_d: Act,
    cr_d: Act,
    ms: Act,
    cl: Act,
    clr: Act,
    ack1: Act,
    tone: Act,
}

// The row that acts on none of them, of which the rows of the phases differ in a few places.
const IDLE: Row = Row {
    mr_d: Act::NoRow,
    cr_d: Act::NoRow,
    ms: Act::NoRow,
    cl: Act::NoRow,
    clr: Act::NoRow,
    ack1: Act::NoRow,
    tone: Act::NoRow,
};

// A phase that carries nothing but the time it was entered.
fn bare(kind: Kind, entry: u64) -> Carried
    ensures { result ≡ record { kind = kind; entry = entry; wish = 0; ack = false } }
{
    Carried {
        kind,
        entry,
        wish: 0,
        ack: false,
    }
}

impl Phase {
    // A phase's name, and what it carries.
    pub fn carried(self) -> Carried
        ensures { TellsCarried self result }
    {
        match self {
            Phase::Initial(t) => bare(Kind::AtInitial, t),
            Phase::AskedE(t) => bare(Kind::AtAskedE, t),
            Phase::AskedD(t) => bare(Kind::AtAskedD, t),
            Phase::ListsE(t) => bare(Kind::AtListsE, t),
            Phase::ListsD(t) => bare(Kind::AtListsD, t),
            Phase::Counter(t) => bare(Kind::AtCounter, t),
            Phase::Listed(t) => bare(Kind::AtListed, t),
            Phase::Traded(t) => bare(Kind::AtTraded, t),
            Phase::Pair(t) => bare(Kind::AtPair, t),
            Phase::Half(t) => bare(Kind::AtHalf, t),
            Phase::Proposed(entry, wish, ack) => Carried {
                kind: Kind::AtProposed,
                entry,
                wish,
                ack,
            },
            Phase::Mode(entry, wish, ack) => Carried {
                kind: Kind::AtMode,
                entry,
                wish,
                ack,
            },
        }
    }
}

impl Kind {
    // A phase's number.
    pub fn number(self) -> u8
        ensures { TellsNumber self result }
    {
        self as u8
    }

    // Whether a phase is Mode.
    pub fn is_mode(self) -> bool
        ensures { TellsMode self result }
    {
        self == Kind::AtMode
    }

    // Whether a transaction is over in a phase.
    pub fn is_over(self) -> bool
        ensures { TellsOver self result }
    {
        matches!(self, Kind::AtInitial | Kind::AtMode)
    }
}

impl OnMrE {
    fn act(self) -> Act
        ensures { result ≡ on_mr_e self }
    {
        match self {
            OnMrE::Ms => Act::Propose,
            OnMrE::MrD => Act::CounterMrD,
            OnMrE::CrD => Act::SendSignal(Signal::CrD),
        }
    }
}

impl OnMrD {
    fn act(self) -> Act
        ensures { result ≡ on_mr_d self }
    {
        match self {
            OnMrD::Ms => Act::Propose,
            OnMrD::CrD => Act::SendSignal(Signal::CrD),
        }
    }
}

impl OnCrD {
    fn act(self) -> Act
        ensures { result ≡ on_cr_d self }
    {
        match self {
            OnCrD::Cl => Act::SendCl,
            OnCrD::Clr => Act::PairClr,
        }
    }
}

impl OnCrE {
    fn act(self, display: OnCrD) -> Act
        ensures { result ≡ on_cr_e self display }
    {
        match self {
            OnCrE::AsOnCrD => display.act(),
            OnCrE::CrD => Act::SendSignal(Signal::CrD),
        }
    }
}

impl Start {
    // A start sends what it names.
    fn act(self) -> Act
        ensures { result ≡ start_act self }
    {
        match self {
            Start::MrE => Act::SendSignal(Signal::MrE),
            Start::MrD => Act::SendSignal(Signal::MrD),
            Start::CrE => Act::SendSignal(Signal::CrE),
            Start::CrD => Act::SendSignal(Signal::CrD),
            Start::Ms => Act::Propose,
            Start::Cl => Act::SendCl,
            Start::Clr => Act::SendClr,
        }
    }
}

impl Settings {
    // What Initial does on a signal.
    fn on_signal(self, signal: Signal) -> Act
        ensures { result ≡ signal_act self signal }
    {
        match signal {
            Signal::MrE => self.on_mr_e.act(),
            Signal::MrD => Act::Propose,
            Signal::CrE => self.on_cr_e.act(self.on_cr_d),
            Signal::CrD => self.on_cr_d.act(),
        }
    }

    // What Initial does.
    fn in_initial(self, heard: Heard) -> Act
        ensures { result ≡ initial_act self heard }
    {
        match heard {
            Heard::Start(start) => start.act(),
            Heard::Signal(signal) => self.on_signal(signal),
            Heard::Ms => Act::Judge,
            Heard::Cl => Act::Take(After::ThenMs),
            Heard::Clr => Act::Take(After::ThenCl),
            Heard::Ack1 => Act::NoRow,
            Heard::Ack2 => Act::NoRow,
            Heard::Nak => Act::NoRow,
            Heard::AnswerTone => Act::NoRow,
            Heard::Spoilt => Act::SendNak1,
        }
    }
}

impl Row {
    // A row that judges an MS, and does this on MR_d and on CR_d.
    fn judging(mr_d: Act, cr_d: Act) -> Row
        ensures { result ≡ judging_row mr_d cr_d }
    {
        Row {
            mr_d,
            cr_d,
            ms: Act::Judge,
            ..IDLE
        }
    }

    // A row that does this on CR_d, and on a CL and a CLR, which it takes.
    fn taking(cr_d: Act, cl: Act, clr: Act) -> Row
        ensures { result ≡ taking_row cr_d cl clr }
    {
        Row {
            cr_d,
            cl,
            clr,
            ..IDLE
        }
    }

    // A row that agrees on ACK(1), and on the answer tone where ACK was not asked.
    fn agreeing(asked: bool) -> Row
        ensures { result ≡ agreeing_row asked }
    {
        Row {
            ack1: Act::Agree,
            tone: tone_act(asked),
            ..IDLE
        }
    }

    // What any phase but Initial and Mode does by its row on a signal.
    fn on_signal(self, signal: Signal) -> Act
        ensures { result ≡ row_signal self signal }
    {
        match signal {
            Signal::MrE => Act::NoRow,
            Signal::MrD => self.mr_d,
            Signal::CrE => Act::NoRow,
            Signal::CrD => self.cr_d,
        }
    }

    // What it does by its row.
    fn act(self, heard: Heard) -> Act
        ensures { result ≡ row_act self heard }
    {
        match heard {
            Heard::Start(_) => Act::NoRow,
            Heard::Signal(signal) => self.on_signal(signal),
            Heard::Ms => self.ms,
            Heard::Cl => self.cl,
            Heard::Clr => self.clr,
            Heard::Ack1 => self.ack1,
            Heard::Ack2 => Act::NoRow,
            Heard::Nak => Act::GiveUp,
            Heard::AnswerTone => self.tone,
            Heard::Spoilt => Act::SendNak1,
        }
    }
}

// The answer tone counts where ACK was not asked.
fn tone_act(asked: bool) -> Act
    ensures { result ≡ tone_act asked }
{
    if asked { Act::NoRow } else { Act::Agree }
}

// The table: what is done in a phase when something is heard.
pub fn act_of(kind: Kind, settings: Settings, asked: bool, heard: Heard) -> Act
    ensures { TellsAct kind settings asked heard result }
{
    let mr_d = settings.on_mr_d.act();
    let cr_d = settings.on_cr_d.act();
    let none = Act::NoRow;
    let ms = Act::Take(After::ThenMs);
    let both = Act::Take(After::ThenClMs);
    let half = Act::Take(After::ThenHalf);
    match kind {
        Kind::AtInitial => settings.in_initial(heard),
        Kind::AtAskedE => Row::judging(mr_d, cr_d).act(heard),
        Kind::AtAskedD => Row::judging(none, none).act(heard),
        Kind::AtListsE => Row::taking(cr_d, ms, both).act(heard),
        Kind::AtListsD => Row::taking(none, ms, both).act(heard),
        Kind::AtCounter => Row::judging(none, cr_d).act(heard),
        Kind::AtListed => Row::judging(none, none).act(heard),
        Kind::AtTraded => Row::taking(none, ms, none).act(heard),
        Kind::AtPair => Row::taking(none, half, none).act(heard),
        Kind::AtHalf => Row::judging(none, none).act(heard),
        Kind::AtProposed => Row::agreeing(asked).act(heard),
        Kind::AtMode => none,
    }
}
