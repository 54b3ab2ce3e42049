// The way back: the byte of a character is guessed by the character's slot, and the guess is right where the table says so.
ghost use Rattle.std.specs.Prelude.{◌≡◌, true, length};
ghost use Rattle.layout.specs.Answers.Calls.{lent};
ghost use Rattle.layout.specs.Answers.Enums.{written_of};
ghost use Rattle.layout.specs.Answers.Lent.{the_turned};
ghost use Rattle.layout.specs.Codings.Turning.{table_of, byte_of, no_byte, lacks as lacksIn, from_utf16};
ghost use Rattle.codings.specs.Guesses.{bytes_same};
ghost use Rattle.codings.specs.Numbers.{number_of, number_le};
ghost use Rattle.codings.specs.Slots.{fit, guess_in};
ghost use Rattle.codings.specs.Ways.{turned_laws};

use crate::coding::Coding;
use crate::slots::{DIVISOR, FACTOR, SLOTS, slots_of};
use crate::tables::{BYTES, table_of};
use crate::way::Way;

#[derive(Clone, Copy)]
pub struct Bytes {
    coding: Coding,
    table: &'static [u16; BYTES],
    slots: &'static [u8; SLOTS],
    ghost is: { table.now ≡ table_of (number_of coding) },
    ghost fits: { fit (table_of (number_of coding)) slots.now ≡ true },
}

impl Bytes {
    // Whether the guess is wrong: what has no byte.
    fn misses(&self, character: u16) -> bool
        ensures { result ≡ lacksIn (byte_of (number_of self.now.coding)) no_byte character }
    {
        self.table[self.turn(character) as usize] != character
    }
}

impl Way for Bytes {
    type Given = u16;

    type Turned = u8;

    ghost answer = { λ c units room. written_of (from_utf16 c units room) };

    ghost left = { λ c units old. lent the_turned (from_utf16 c units (length old)) old };

    ghost number = { λ w. number_of w.coding };

    ghost lacks = { λ w. lacksIn (byte_of (number_of w.coding)) no_byte };

    ghost turn = { λ w character. guess_in w.slots.now character };

    fn of(coding: Coding) -> Bytes {
        Bytes {
            coding,
            table: table_of(coding),
            slots: slots_of(coding),
        }
    }

    fn first_without(&self, units: &[u16]) -> Option<usize> {
        units.iter().position(|unit| self.misses(*unit))
    }

    // The only byte that can have this character.
    fn turn(&self, character: u16) -> u8 {
        self.slots[(character as u32 * FACTOR / DIVISOR) as usize % SLOTS]
    }

    ghost laws = { turned_laws (λ w. number_of w.coding) byte_of no_byte (λ w character. guess_in w.slots.now character)
        (λ w. number_le w.coding) (λ w. bytes_same (number_of w.coding) w.slots.now w.fits) };
}
