// The way there: which bytes have a character, and the character of each.
ghost use Rattle.std.specs.Prelude.{◌≡◌, length, position};
ghost use Rattle.layout.specs.Answers.Calls.{lent};
ghost use Rattle.layout.specs.Answers.Enums.{written_of};
ghost use Rattle.layout.specs.Answers.Lent.{the_turned};
ghost use Rattle.layout.specs.Codings.Tables.{no_character};
ghost use Rattle.layout.specs.Codings.Turning.{table_of, character_of, lacks as lacksIn, to_utf16};
ghost use Rattle.codings.specs.Guesses.{characters_same};
ghost use Rattle.codings.specs.Numbers.{number_of, number_le};
ghost use Rattle.codings.specs.Slots.{read_in};
ghost use Rattle.codings.specs.Ways.{turned_laws};

use crate::coding::Coding;
use crate::tables::{BYTES, table_of};
use crate::way::Way;

// The only byte of the three codings without a character: it is one of page 1251.
const WITHOUT: u8 = 0x98;

// Whether a byte of page 1251 has no character.
fn lacks(byte: u8) -> bool
    ensures { result ≡ lacksIn (character_of 1) no_character byte }
{
    byte == WITHOUT
}

// The first byte of a text of page 1251 that has no character. Most texts have none, and `contains` looks at many bytes at a time.
fn first_lacking(text: &[u8]) -> Option<usize>
    ensures { result ≡ position (lacksIn (character_of 1) no_character) text.now }
{
    if !text.contains(&WITHOUT) {
        return None;
    }
    text.iter().position(|byte| lacks(*byte))
}

#[derive(Clone, Copy)]
pub struct Characters {
    coding: Coding,
    table: &'static [u16; BYTES],
    ghost is: { table.now ≡ table_of (number_of coding) },
}

impl Way for Characters {
    type Given = u8;

    type Turned = u16;

    ghost answer = { λ c text room. written_of (to_utf16 c text room) };

    ghost left = { λ c text old. lent the_turned (to_utf16 c text (length old)) old };

    ghost number = { λ w. number_of w.coding };

    ghost lacks = { λ w. lacksIn (character_of (number_of w.coding)) no_character };

    ghost turn = { λ w byte. read_in w.table.now byte };

    fn of(coding: Coding) -> Characters {
        Characters {
            coding,
            table: table_of(coding),
        }
    }

    fn first_without(&self, text: &[u8]) -> Option<usize> {
        match self.coding {
            Coding::Windows => first_lacking(text),
            Coding::Dos | Coding::Koi8 => None,
        }
    }

    fn turn(&self, byte: u8) -> u16 {
        self.table[byte as usize]
    }

    ghost laws = { turned_laws (λ w. number_of w.coding) character_of no_character (λ w byte. read_in w.table.now byte) (λ w. number_le w.coding)
        (λ w. characters_same (number_of w.coding) w.table.now w.is) };
}
