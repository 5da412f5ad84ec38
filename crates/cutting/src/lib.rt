// Loss of power or RESET# low, as far as what is lent goes (document 01, "The cut").
#![tactic(auto)]

ghost use Rattle.std.specs.Prelude.{◌≡◌, ℕ, ◌≤◌, List, length};
ghost use Rattle.geometry.specs.Parts.{word_count};
ghost use Rattle.plain.specs.Lent.{lent, Whole};
ghost use Rattle.plain.specs.Cut.{block_debris, program_debris, debris_needed, block_cut, program_cut, cut_lent};
ghost use Rattle.plain.proofs.CutCells.{Lies};
ghost use Rattle.cutting.specs.Cuttable.{Cuttable};
ghost use Rattle.cutting.specs.Exposes.{exposed_by};

use geometry::Part;
use plain::{Operation, Written};

mod begun;

pub use begun::Exposed;

// What a cut would change if it came now.
pub fn exposed(part: Part, operation: Operation) -> Exposed
    ensures { result ≡ exposed_by part operation }
{
    Exposed {
        block: begun::begun_block(part, operation),
        word: begun::word_of(begun::begun_program(part, operation)),
    }
}

// "A begun erase needs as many debris words as the block in hand has; a begun program needs one, after those."
pub fn debris_needed(part: Part, operation: Operation) -> usize
    ensures { result ≡ debris_needed part operation }
{
    let block = begun::begun_block(part, operation);
    let program = begun::begun_program(part, operation);
    block_debris(part, block) + program_debris(program)
}

// What is lent after the cut. Its caller has found it whole, and the debris long enough.
pub fn cut_lent(
    part: Part,
    operation: Operation,
    cells: &mut [u16],
    otp: &mut [u16],
    debris: &[u16],
)
    requires { Cuttable part operation (lent cells.old otp.old) debris.now }
    ensures cells_after { cells.new ≡ (cut_lent part operation debris.now (lent cells.old otp.old)).cells }
    ensures otp_after { otp.new ≡ (cut_lent part operation debris.now (lent cells.old otp.old)).otp }
{
    let block = begun::begun_block(part, operation);
    let program = begun::begun_program(part, operation);
    cut_block(part, block, cells, debris);
    let next = block_debris(part, block);
    cut_program(part, program, cells, otp, &debris[next..]);
}

// "The block takes the debris as its words."
fn cut_block(part: Part, block: Option<usize>, cells: &mut [u16], debris: &[u16])
    requires { (length cells.old ≡ word_count part) × (block_debris part block ≤ length debris.now) }
    ensures { (otp : List ℕ) → lent cells.new otp ≡ block_cut part block debris.now (lent cells.old otp) }
{
    if let Some(b) = block {
        cells::litter(cells, part.first_of(b), part.size_of(b), debris);
    }
}

// "The program's word becomes old AND (data OR debris)": the debris starts with its own.
#[tactic(auto, unfolding(plain::specs::Cut::program_cut, plain::specs::Cut::program_debris))]
fn cut_program(
    part: Part,
    program: Option<Written>,
    cells: &mut [u16],
    otp: &mut [u16],
    debris: &[u16],
)
    requires whole { Whole part (lent cells.old otp.old) × Lies part program }
    requires program_in_bounds { program_debris program ≤ length debris.now }
    ensures cells_after { cells.new ≡ (program_cut program debris.now (lent cells.old otp.old)).cells }
    ensures otp_after { otp.new ≡ (program_cut program debris.now (lent cells.old otp.old)).otp }
{
    if let Some(written) = program {
        programs::cut_off(part, written, cells, otp, debris);
    }
}

#[tactic(auto, unfolding(plain::specs::Cut::block_debris))]
fn block_debris(part: Part, block: Option<usize>) -> usize
    ensures { result ≡ block_debris part block }
{
    match block {
        None => 0,
        Some(b) => part.size_of(b),
    }
}

#[tactic(auto, unfolding(plain::specs::Cut::program_debris))]
fn program_debris(program: Option<Written>) -> usize
    ensures { result ≡ program_debris program }
{
    match program {
        None => 0,
        Some(written) => programs::debris_words(written),
    }
}
