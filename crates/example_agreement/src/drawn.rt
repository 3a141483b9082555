//! Values that are drawn from seeds.
ghost use Rattle.std.specs.Prelude.{◌<◌};

use crate::amount::Amount;
use crate::card::Card;
use crate::event::Event;
use crate::message::Message;
use crate::note::Note;
use crate::opening::{Day, Opening};
use crate::order::Order;
use crate::page::Page;
use crate::review::Review;
use crate::sensor::Sensor;
use crate::station::Station;
use crate::tree::Tree;
use std::alloc::{AllocError, Global};
use std::collections::{BTreeMap, BTreeSet};

/// Where numbers are drawn from.
#[derive(Drop)]
pub struct Draw {
    state: u64,
}

impl Draw {
    /// Begins at a seed.
    pub fn new(seed: u64) -> Draw {
        let mut draw = Draw { state: seed };
        draw.turn();
        draw
    }

    fn turn(&mut self) {
        self.state = self
            .state
            .wrapping_mul(6364136223846793005)
            .wrapping_add(1442695040888963407);
    }

    // A number below `n`.
    fn below(&mut self, n: u32) -> u32
        requires { 0 < n }
        ensures { result < n }
    {
        self.turn();
        (self.state >> 33) as u32 % n
    }

    fn is_heads(&mut self) -> bool {
        self.below(2) == 0
    }

    // One of the bytes, at times the least or the greatest.
    fn byte(&mut self) -> u8 {
        match self.below(4) {
            0 => 0,
            1 => u8::MAX,
            _ => self.below(256) as u8,
        }
    }

    fn optional_byte(&mut self) -> Option<u8> {
        if self.is_heads() {
            return None;
        }
        Some(self.byte())
    }

    fn signed_byte(&mut self) -> i8 {
        (i16::from(self.byte()) - 128) as i8
    }

    // A number of 16 bits, at times the least or the greatest.
    fn short(&mut self) -> i16 {
        match self.below(4) {
            0 => i16::MIN,
            1 => i16::MAX,
            _ => i16::from(self.signed_byte()),
        }
    }

    fn word(&mut self) -> u32 {
        match self.below(4) {
            0 => 0,
            1 => u32::MAX,
            _ => self.below(u32::MAX),
        }
    }

    fn long(&mut self) -> u64 {
        match self.below(4) {
            0 => 0,
            1 => u64::MAX,
            2 => 9007199254740993,
            _ => u64::from(self.word()),
        }
    }

    fn text(&mut self, alloc: Global) -> Result<String, AllocError> {
        let text = match self.below(8) {
            0 => "",
            1 => "Ada",
            2 => "Bo",
            3 => "\"quoted\" \\",
            4 => "caf\u{e9}",
            5 => "\u{1f600}",
            6 => "line\nbreak\u{0}",
            _ => "null",
        };
        String::from_str(alloc, text)
    }

    fn optional_text(&mut self, alloc: Global) -> Result<Option<String>, AllocError> {
        if self.is_heads() {
            return Ok(None);
        }
        Ok(Some(self.text(alloc)?))
    }
}

/// A type whose values can be drawn.
pub trait Drawn {
    fn drawn(alloc: Global, draw: &mut Draw) -> Result<Self, AllocError>;
}

impl Drawn for Sensor {
    fn drawn(alloc: Global, draw: &mut Draw) -> Result<Sensor, AllocError> {
        let mut tags = Vec::new(alloc);
        for _ in 0..draw.below(4) {
            tags.push(draw.text(alloc)?)?;
        }
        let label = draw.text(alloc)?;
        Ok(Sensor {
            id: draw.word(),
            label,
            on: draw.is_heads(),
            tags,
            range: (draw.short(), draw.short()),
            limit: draw.optional_byte(),
        })
    }
}

impl Drawn for Station {
    fn drawn(alloc: Global, draw: &mut Draw) -> Result<Station, AllocError> {
        let first = Sensor::drawn(alloc, draw)?;
        let mut others = Vec::new(alloc);
        for _ in 0..draw.below(4) {
            others.push(Sensor::drawn(alloc, draw)?)?;
        }
        let mut counts = BTreeMap::new(alloc);
        for _ in 0..draw.below(4) {
            counts.insert(draw.text(alloc)?, draw.long())?;
        }
        Ok(Station {
            first,
            others,
            counts,
        })
    }
}

impl Drawn for Event {
    fn drawn(alloc: Global, draw: &mut Draw) -> Result<Event, AllocError> {
        match draw.below(4) {
            0 => Ok(Event::Started),
            1 => Ok(Event::Renamed(draw.text(alloc)?)),
            2 => Ok(Event::Moved(draw.signed_byte(), draw.signed_byte())),
            _ => Ok(Event::Joined {
                name: draw.text(alloc)?,
                age: draw.optional_byte(),
            }),
        }
    }
}

impl Drawn for Amount {
    fn drawn(alloc: Global, draw: &mut Draw) -> Result<Amount, AllocError> {
        match draw.below(4) {
            0 => Ok(Amount::Unknown),
            1 => Ok(Amount::Count(draw.long())),
            2 => Ok(Amount::Between(draw.long(), draw.long())),
            _ => Ok(Amount::Named {
                name: draw.text(alloc)?,
            }),
        }
    }
}

impl Drawn for Message {
    fn drawn(alloc: Global, draw: &mut Draw) -> Result<Message, AllocError> {
        if draw.is_heads() {
            return Ok(Message::Ping);
        }
        let body = draw.text(alloc)?;
        let to = draw.optional_text(alloc)?;
        Ok(Message::Text { body, to })
    }
}

impl Drawn for Order {
    fn drawn(alloc: Global, draw: &mut Draw) -> Result<Order, AllocError> {
        match draw.below(4) {
            0 => Ok(Order::Stop),
            1 => Ok(Order::Wait(draw.word())),
            2 => Ok(Order::Move(draw.signed_byte(), draw.signed_byte())),
            _ => Ok(Order::Say {
                words: draw.text(alloc)?,
            }),
        }
    }
}

impl Drawn for Page {
    fn drawn(alloc: Global, draw: &mut Draw) -> Result<Page, AllocError> {
        let title = draw.text(alloc)?;
        let note = draw.optional_text(alloc)?;
        Ok(Page { title, note })
    }
}

impl Drawn for Note {
    fn drawn(alloc: Global, draw: &mut Draw) -> Result<Note, AllocError> {
        let words = draw.text(alloc)?;
        Ok(Note {
            words,
            stars: draw.byte(),
        })
    }
}

impl Drawn for Review {
    fn drawn(alloc: Global, draw: &mut Draw) -> Result<Review, AllocError> {
        if draw.is_heads() {
            return Ok(Review::Missing);
        }
        Ok(Review::Given(Note::drawn(alloc, draw)?))
    }
}

impl Drawn for Card {
    fn drawn(alloc: Global, draw: &mut Draw) -> Result<Card, AllocError> {
        let mut tags = BTreeSet::new(alloc);
        for _ in 0..draw.below(5) {
            tags.insert(draw.text(alloc)?)?;
        }
        let note = Note::drawn(alloc, draw)?;
        Ok(Card {
            id: draw.word(),
            tags,
            note,
        })
    }
}

impl Drawn for Tree {
    // Each tree is put beside those before it, or above them.
    fn drawn(alloc: Global, draw: &mut Draw) -> Result<Tree, AllocError> {
        let mut children = Vec::new(alloc);
        for _ in 0..draw.below(8) {
            let name = draw.text(alloc)?;
            if draw.is_heads() {
                let below = Vec::new(alloc);
                children.push(Tree {
                    name,
                    children: below,
                })?;
            } else {
                let tree = Tree { name, children };
                children = Vec::new(alloc);
                children.push(tree)?;
            }
        }
        let name = draw.text(alloc)?;
        Ok(Tree { name, children })
    }
}

impl Drawn for Day {
    fn drawn(_alloc: Global, draw: &mut Draw) -> Result<Day, AllocError> {
        match draw.below(3) {
            0 => Ok(Day::Weekday),
            1 => Ok(Day::Saturday),
            _ => Ok(Day::Sunday),
        }
    }
}

impl Drawn for Opening {
    fn drawn(alloc: Global, draw: &mut Draw) -> Result<Opening, AllocError> {
        let mut hours = BTreeMap::new(alloc);
        for _ in 0..draw.below(4) {
            hours.insert(Day::drawn(alloc, draw)?, draw.byte())?;
        }
        let mut notes = BTreeMap::new(alloc);
        for _ in 0..draw.below(4) {
            notes.insert(draw.short(), draw.text(alloc)?)?;
        }
        Ok(Opening { hours, notes })
    }
}
