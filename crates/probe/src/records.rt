// The control record out of words, and into words: the current half in one word, ten numbers in two words each, the globals,
// for each session its registers and five words more, and how many birth numbers are used.
use crate::words::halves;
use rules::Session;
use store::{Control, Cursor};

// The numbers of two words each.
const PAIRS: usize = 10;

// The words of a session.
const SESSION: usize = rules::REGISTERS + 5;

// Where the parts of a control record begin, after the current half, and how many words it has.
const NUMBERS: usize = 1;

const GLOBALS: usize = NUMBERS + 2 * PAIRS;

const SESSIONS: usize = GLOBALS + Control::GLOBALS;

const BIRTHS: usize = SESSIONS + SESSION * Control::SESSIONS;

pub(crate) const CONTROL: usize = BIRTHS + 1;

// The ten numbers out of words.
fn numbers_of(words: &[u32; CONTROL]) -> [usize; PAIRS] {
    let mut numbers = [0usize; PAIRS];
    let pairs = &words[NUMBERS..GLOBALS];
    for (number, [upper, lower]) in numbers.iter_mut().zip(pairs.as_chunks::<2>().0) {
        *number = ((*upper as usize) << 32) | (*lower as usize);
    }
    numbers
}

// A session out of words.
fn session_of(words: &[u32; SESSION]) -> Session {
    let [.., level, share, charge, attached, scanned] = *words;
    let mut registers = [0u32; rules::REGISTERS];
    registers.copy_from_slice(&words[..rules::REGISTERS]);
    Session {
        registers,
        level,
        share,
        charge,
        attached: attached != 0,
        scanned: scanned != 0,
    }
}

// The sixteen sessions out of words.
fn sessions_of(words: &[u32; CONTROL]) -> [Session; Control::SESSIONS] {
    let mut sessions = [session_of(&[0; SESSION]); Control::SESSIONS];
    let parts = &words[SESSIONS..BIRTHS];
    for (session, part) in sessions.iter_mut().zip(parts.as_chunks().0) {
        *session = session_of(part);
    }
    sessions
}

// The control record out of words.
pub(crate) fn control_of(words: &[u32; CONTROL]) -> Control {
    let [
        length0,
        length1,
        capacity,
        frontier0,
        frontier1,
        phase,
        place,
        field,
        head,
        tail,
    ] = numbers_of(words);
    let mut globals = [0u32; Control::GLOBALS];
    globals.copy_from_slice(&words[GLOBALS..SESSIONS]);
    Control {
        length0,
        length1,
        capacity,
        cursor: Cursor {
            current: words[0],
            frontier0,
            frontier1,
            phase,
            place,
            field,
            head,
            tail,
        },
        births: words[BIRTHS],
        globals,
        sessions: sessions_of(words),
    }
}

// The ten numbers into words.
fn put_numbers(words: &mut [u32; CONTROL], control: &Control) {
    let cursor = control.cursor;
    let numbers = [
        control.length0,
        control.length1,
        control.capacity,
        cursor.frontier0,
        cursor.frontier1,
        cursor.phase,
        cursor.place,
        cursor.field,
        cursor.head,
        cursor.tail,
    ];
    let pairs = &mut words[NUMBERS..GLOBALS];
    for (pair, number) in pairs.as_chunks_mut().0.iter_mut().zip(numbers) {
        *pair = halves(number as u64);
    }
}

// A session into words.
fn put_session(words: &mut [u32; SESSION], session: &Session) {
    let (registers, others) = words.split_at_mut(rules::REGISTERS);
    registers.copy_from_slice(&session.registers);
    others.copy_from_slice(&[
        session.level,
        session.share,
        session.charge,
        session.attached as u32,
        session.scanned as u32,
    ]);
}

// The sixteen sessions into words.
fn put_sessions(words: &mut [u32; CONTROL], sessions: &[Session]) {
    let parts = &mut words[SESSIONS..BIRTHS];
    for (part, session) in parts.as_chunks_mut().0.iter_mut().zip(sessions) {
        put_session(part, session);
    }
}

// The words of a control record.
pub(crate) fn words_of(control: &Control) -> [u32; CONTROL] {
    let mut words = [0u32; CONTROL];
    words[0] = control.cursor.current;
    words[BIRTHS] = control.births;
    words[GLOBALS..SESSIONS].copy_from_slice(&control.globals);
    put_numbers(&mut words, control);
    put_sessions(&mut words, &control.sessions);
    words
}
