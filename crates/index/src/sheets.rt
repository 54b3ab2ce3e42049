// From a sheet: its index, or the records of a class code without one. The sheet's own refusals come first, ROOM last.
ghost use Rattle.std.specs.Prelude.{◌≡◌, ◌^◌, ◌≤◌, length};
ghost use Rattle.index.specs.Hopped.{hopped};
ghost use Rattle.layout.specs.Answers.Calls.{in_room, roomed, lent};
ghost use Rattle.layout.specs.Answers.Enums.{written_of};
ghost use Rattle.layout.specs.Answers.Lent.{the_given};
ghost use Rattle.layout.specs.Fields.Block;
ghost use Rattle.layout.specs.Index.Blocks.{encode_index, begun};
ghost use Rattle.layout.specs.Index.Selecting.{index_of, picked};
ghost use Rattle.layout.specs.Reading.Sheets.{start};
ghost use Rattle.layout.specs.declared.BlockKind.TheVariants.{New};
ghost use Rattle.reading.specs.Found.{Hops};

use crate::building::put_blocks;
use crate::hits;
use crate::hops::SheetEntries;
use fields::checks::refused;
use layout::refusals::Reason;
use layout::{Refusal, block, sheet};
use meanings::setting::Setting;
use reading::sheets::check;

// The index of an accepted sheet of so many records, if there is room.
fn build_in(s: &[u8], count: usize, index: &mut [u8]) -> Result<usize, Refusal>
    requires { Hops count start s.now × (begun (Block.full New) count ≤ 256 ^ (Block.number).width) }
    ensures answers { result ≡ written_of (in_room (length index.old) (encode_index New (hopped count start s.now))) }
    ensures written { index.new ≡ lent the_given (in_room (length index.old) (encode_index New (hopped count start s.now)))
        index.old }
{
    let n = block::SIZE * ((count + (block::FULL - 1)) / block::FULL);
    if index.len() < n {
        return refused(Reason::Room, 0);
    }
    put_blocks(s, count, index);
    Ok(n)
}

// The code index of a sheet. The answer is how many bytes are written, 512 for each begun block of 56 records.
pub fn build(s: &[u8], setting: Setting, index: &mut [u8]) -> Result<usize, Refusal>
    ensures answers { result ≡ written_of (roomed (length index.old) (index_of setting.year s.now)) }
    ensures written { index.new ≡ lent the_given (roomed (length index.old) (index_of setting.year s.now))
        index.old }
{
    let sizes = check(s, setting)?;
    build_in(s, sizes.records as usize, index)
}

// The records of a class code, by reading the sheet: three numbers each, as `files::select` gives them.
pub fn select(s: &[u8], setting: Setting, code: u32, picks: &mut [u64]) -> Result<usize, Refusal>
    ensures answers { result ≡ written_of (roomed (length picks.old) (picked setting.year s.now code)) }
    ensures written { picks.new ≡ lent the_given (roomed (length picks.old) (picked setting.year s.now code))
        picks.old }
{
    let sizes = check(s, setting)?;
    let entries = SheetEntries {
        s,
        at: sheet::START,
        count: sizes.records as usize,
    };
    hits::select_in(entries, code, picks)
}

// The two calls above, at a year, for C has years (`sxf_index_build`, `sxf_select`).
pub fn build_by_year(s: &[u8], year: u32, index: &mut [u8]) -> Result<usize, Refusal>
    ensures answers { result ≡ written_of (roomed (length index.old) (index_of year s.now)) }
    ensures written { index.new ≡ lent the_given (roomed (length index.old) (index_of year s.now)) index.old }
{
    let setting = Setting::new(year)?;
    build(s, setting, index)
}

pub fn select_by_year(s: &[u8], year: u32, code: u32, picks: &mut [u64]) -> Result<usize, Refusal>
    ensures answers { result ≡ written_of (roomed (length picks.old) (picked year s.now code)) }
    ensures written { picks.new ≡ lent the_given (roomed (length picks.old) (picked year s.now code))
        picks.old }
{
    let setting = Setting::new(year)?;
    select(s, setting, code, picks)
}
