// The carrier: the messages that wait, by sender and receiver, at most twelve of each pair, and the last that was taken of each pair.
// Parts are from 0. A message is kept as ten bytes: its length, then its own.
ghost use Rattle.std.specs.Prelude.{◌<◌};

use crate::calls;
use crate::calls::NONE;
use base::MOST_PARTS;

// A message, and room behind it.
type Message = [u8; 12];

// As parts are counted here.
const PARTS: u8 = MOST_PARTS as u8;

fn byte(list: &[u8], i: usize) -> u8 {
    if i < list.len() { list[i] } else { 0 }
}

fn set_byte(list: &mut [u8], i: usize, x: u8) {
    if i < list.len() {
        list[i] = x;
    }
}

fn pair(from: u8, to: u8) -> usize
    ensures { result < 5000 }
{
    MOST_PARTS * usize::from(from) + usize::from(to)
}

// Where the message k of a pair stands among those that wait.
fn place(from: u8, to: u8, k: u8) -> usize
    ensures { result < 1000000 }
{
    120 * pair(from, to) + 10 * usize::from(k)
}

fn copy_ten(list: &[u8], a: usize, out: &mut [u8], b: usize)
    requires { (a < 1000000) × (b < 1000000) }
{
    for i in 0..10 {
        set_byte(out, b + i, byte(list, a + i));
    }
}

// The first of twelve messages goes, the others move up.
fn shift(queue: &mut [u8], a: usize)
    requires { a < 1000000 }
{
    for i in 0..110 {
        let x = byte(queue, a + 10 + i);
        set_byte(queue, a + i, x);
    }
}

// Offers a message to a part.
fn offer(stores: &mut [u16], at: u8, message: Message, short: bool) -> u8 {
    let n = usize::from(message[0]);
    if n + 1 > message.len() {
        return NONE;
    }
    calls::hand(stores, at, &message[1..n + 1], short)
}

// A message damaged: 0 cuts its last byte, 1 adds one, 2 and more sets the byte with the number how - 2.
fn damage(message: &mut Message, how: u8, value: u8) {
    let n = message[0];
    match how {
        0 => message[0] = n.saturating_sub(1),
        1 => {
            if n < 11 {
                message[0] = n + 1;
            }
        },
        _ => set_byte(message, usize::from(how) - 1, value),
    }
}

#[derive(Drop)]
pub struct Carrier {
    queue: [u8; 30720],
    counts: [u8; 256],
    last: [u8; 2560],
}

impl Carrier {
    // Nothing is carried yet.
    pub fn new() -> Self {
        Carrier {
            queue: [0; 30720],
            counts: [0; 256],
            last: [0; 2560],
        }
    }

    // How many messages of a pair wait.
    fn waiting(&self, from: u8, to: u8) -> u8 {
        byte(&self.counts, pair(from, to))
    }

    // Whether a message from this part to any other can wait.
    fn has_room(&self, from: u8) -> bool {
        for to in 0..PARTS {
            if self.waiting(from, to) >= 12 {
                return false;
            }
        }
        true
    }

    // Keeps a message; its third byte is its receiver, from 1.
    fn keep(&mut self, from: u8, message: Message) {
        let to = message[3];
        if to == 0 {
            return;
        }
        let n = self.waiting(from, to - 1);
        if n >= 12 {
            return;
        }
        copy_ten(&message, 0, &mut self.queue, place(from, to - 1, n));
        set_byte(&mut self.counts, pair(from, to - 1), n + 1);
    }

    // Fetches a message, where one more can wait.
    pub fn fetch(&mut self, stores: &mut [u16], at: u8, short: bool) -> u8 {
        if !self.has_room(at) {
            return NONE;
        }
        let mut message = [0u8; 12];
        let answer = calls::fetch(stores, at, &mut message, short);
        if answer == 0 {
            self.keep(at, message);
        }
        answer
    }

    // The message k that waits.
    fn find(&self, from: u8, to: u8, k: u8) -> Option<Message> {
        if k >= self.waiting(from, to) {
            return None;
        }
        let mut message = [0u8; 12];
        copy_ten(&self.queue, place(from, to, k), &mut message, 0);
        Some(message)
    }

    // The last message that was taken.
    fn find_last(&self, from: u8, to: u8) -> Option<Message> {
        let mut message = [0u8; 12];
        copy_ten(&self.last, 10 * pair(from, to), &mut message, 0);
        if message[0] > 0 { Some(message) } else { None }
    }

    // The first message of a pair is taken.
    fn take(&mut self, from: u8, to: u8) {
        let k = pair(from, to);
        copy_ten(&self.queue, 120 * k, &mut self.last, 10 * k);
        shift(&mut self.queue, 120 * k);
        let n = self.waiting(from, to);
        if n > 0 {
            set_byte(&mut self.counts, k, n - 1);
        }
    }

    // Offers the next message of a pair to its receiver.
    pub fn next(&mut self, stores: &mut [u16], from: u8, to: u8, short: bool) -> u8 {
        let Some(message) = self.find(from, to, 0) else {
            return NONE;
        };
        let answer = offer(stores, to, message, short);
        if answer == 0 {
            self.take(from, to);
        }
        answer
    }

    // Offers the message k that waits to any part; it goes on waiting.
    pub fn early(&self, stores: &mut [u16], from: u8, to: u8, k: u8, at: u8, short: bool) -> u8 {
        match self.find(from, to, k) {
            Some(message) => offer(stores, at, message, short),
            None => NONE,
        }
    }

    // Offers the last message that was taken again, to any part.
    pub fn again(&self, stores: &mut [u16], from: u8, to: u8, at: u8, short: bool) -> u8 {
        match self.find_last(from, to) {
            Some(message) => offer(stores, at, message, short),
            None => NONE,
        }
    }

    // Offers the next message of a pair to its receiver, damaged; it goes on waiting.
    pub fn damaged(
        &self,
        stores: &mut [u16],
        from: u8,
        to: u8,
        how: u8,
        value: u8,
        short: bool,
    ) -> u8 {
        let Some(found) = self.find(from, to, 0) else {
            return NONE;
        };
        let mut message = found;
        damage(&mut message, how, value);
        offer(stores, to, message, short)
    }

    fn fetch_all(&mut self, stores: &mut [u16], at: u8) {
        for _ in 0..200 {
            if self.fetch(stores, at, false) != 0 {
                return;
            }
        }
    }

    fn next_all(&mut self, stores: &mut [u16], from: u8, to: u8) {
        for _ in 0..200 {
            if self.next(stores, from, to, false) != 0 {
                return;
            }
        }
    }

    // What a part has written goes to the others, as far as they take it; then the part makes a step, if it can.
    fn tend(&mut self, stores: &mut [u16], at: u8) {
        self.fetch_all(stores, at);
        for to in 0..PARTS {
            self.next_all(stores, at, to);
        }
        calls::step(stores, at, false);
    }

    fn tend_all(&mut self, stores: &mut [u16], parts: u8) {
        for at in 0..parts {
            self.tend(stores, at);
        }
    }

    // Carries the exchange to its end by a plain loop. 0 where all parts are done.
    pub fn finish(&mut self, stores: &mut [u16], parts: u8) -> u8 {
        for _ in 0..5000 {
            if (0..parts).all(|at| calls::is_done(stores, at)) {
                return 0;
            }
            self.tend_all(stores, parts);
        }
        NONE
    }
}
