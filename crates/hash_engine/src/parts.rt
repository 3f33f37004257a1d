//! Squares made of the quadrants of others.

ghost use Rattle.std.specs.Prelude.{◌≡◌, ◌+◌, ℕ, suc, [], ◌∷◌, All, IfOk, Err};
ghost use Rattle.square_table.specs.Squares.{IsNumber, AreNumbers, square_in, square_of, Grows, kids_at};
ghost use Rattle.square_table.specs.Made.{Adds, IsFull};
ghost use Rattle.hash_life_laws.specs.Result.{middle, later};
ghost use Rattle.hash_life_laws.specs.Puts.{nine_of};
ghost use Rattle.hash_engine.specs.Standing.{CanBePut, BlockCanBePut};
ghost use Rattle.hash_engine.specs.Adding.{AddsOf, AddsFours, AddsJoined, AddsMiddle, AddsMiddles, AreMiddles, GivesOf, GiveAllOf, GiveFours, GiveJoined, GivesMiddle, GivesMiddles, GivesPut, GivesBlockPut};
ghost use Rattle.hash_engine.specs.Blocks.{AreBlocks, GiveFourBlocks};
ghost use Rattle.hash_engine.specs.Found.{KeepsRule};

use crate::block::Block;
use bit_blocks::ask_four;
use square_table::{SquareTable, TableFault};
use worlds::Ask;

/// The square of half the side in the middle.
#[tactic(auto, unfolding(square_table::specs::Squares::IsNumber))]
#[inline(never)]
pub(crate) fn middle(table: &mut SquareTable<'_>, number: u32) -> Result<u32, TableFault>
    requires { (k : ℕ) × IsNumber table.old.rows (suc (suc k)) number }
    ensures grows { Grows table.old table.new }
    ensures square { IfOk result (GivesOf middle table.old number table.new) }
    ensures adds { AddsOf (λ s. middle s ∷ []) table.old number table.new }
    ensures full { result ≡ Err TableFault.NoRoom → IsFull table.new }
{
    middle_of(table, table.quadrants(number))
}

/// The same of the square with these quadrants, which needn't be one of the table.
#[tactic(auto, unfolding(square_table::specs::Squares::IsNumber))]
pub(crate) fn middle_of(table: &mut SquareTable<'_>, quadrants: [u32; 4]) -> Result<u32, TableFault>
    requires { (k : ℕ) × AreNumbers table.old.rows (suc k) quadrants }
    ensures grows { Grows table.old table.new }
    ensures square { IfOk result (GivesMiddle table.old quadrants table.new) }
    ensures adds { AddsMiddle table.old quadrants table.new }
    ensures full { result ≡ Err TableFault.NoRoom → IsFull table.new }
{
    let [nw, ne, sw, se] = quadrants;
    let [_, _, _, a] = table.quadrants(nw);
    let [_, _, b, _] = table.quadrants(ne);
    let [_, c, _, _] = table.quadrants(sw);
    let [d, _, _, _] = table.quadrants(se);
    table.join_numbers([a, b, c, d])
}

/// The nine squares of half the side that overlap in a square, by rows. All that are made are looked
/// for before the first is joined.
#[tactic(auto, unfolding(square_table::specs::Squares::IsNumber))]
pub(crate) fn nine(table: &mut SquareTable<'_>, number: u32) -> Result<[u32; 9], TableFault>
    requires { (k : ℕ) × IsNumber table.old.rows (suc (suc k)) number }
    ensures grows { Grows table.old table.new }
    ensures squares { IfOk result (GiveAllOf nine_of table.old number table.new) }
    ensures adds { AddsOf nine_of table.old number table.new }
    ensures full { result ≡ Err TableFault.NoRoom → IsFull table.new }
{
    let [nw, ne, sw, se] = table.quadrants(number);
    let [_, b, e, f] = table.quadrants(nw);
    let [c, _, g, h] = table.quadrants(ne);
    let [i, j, _, n] = table.quadrants(sw);
    let [k, l, o, _] = table.quadrants(se);
    let north = table.guess([b, c, f, g]);
    let west = table.guess([e, f, i, j]);
    let centre = table.guess([f, g, j, k]);
    let east = table.guess([g, h, k, l]);
    let south = table.guess([j, k, n, o]);
    let north = table.join_guessed([b, c, f, g], north)?;
    let west = table.join_guessed([e, f, i, j], west)?;
    let centre = table.join_guessed([f, g, j, k], centre)?;
    let east = table.join_guessed([g, h, k, l], east)?;
    let south = table.join_guessed([j, k, n, o], south)?;
    Ok([nw, north, ne, west, centre, east, sw, south, se])
}

// Four squares, each of its quadrants. All are looked for before the first is joined.
#[inline(always)]
fn join_four(table: &mut SquareTable<'_>, four: [[u32; 4]; 4]) -> Result<[u32; 4], TableFault>
    ensures grows { Grows table.old table.new }
    ensures squares { IfOk result (GiveJoined table.old four table.new) }
    ensures adds { AddsJoined table.old four table.new }
    ensures full { result ≡ Err TableFault.NoRoom → IsFull table.new }
{
    let [nw, ne, sw, se] = four;
    let north_west = table.guess(nw);
    let north_east = table.guess(ne);
    let south_west = table.guess(sw);
    let south_east = table.guess(se);
    let nw = table.join_guessed(nw, north_west)?;
    let ne = table.join_guessed(ne, north_east)?;
    let sw = table.join_guessed(sw, south_west)?;
    let se = table.join_guessed(se, south_east)?;
    Ok([nw, ne, sw, se])
}

/// The four squares that overlap in what nine make, by rows.
pub(crate) fn fours(table: &mut SquareTable<'_>, nine: [u32; 9]) -> Result<[u32; 4], TableFault>
    ensures grows { Grows table.old table.new }
    ensures squares { IfOk result (GiveFours table.old nine table.new) }
    ensures adds { AddsFours table.old nine table.new }
    ensures full { result ≡ Err TableFault.NoRoom → IsFull table.new }
{
    let [a, b, c, d, e, f, g, h, i] = nine;
    join_four(
        table,
        [[a, b, d, e], [b, c, e, f], [d, e, g, h], [e, f, h, i]],
    )
}

// The middles of the four squares that overlap in what nine make, each by its quadrants.
#[tactic(auto, unfolding(square_table::specs::Squares::IsNumber))]
fn middles(table: &SquareTable<'_>, nine: [u32; 9]) -> [[u32; 4]; 4]
    requires { (k : ℕ) × All (IsNumber table.now.rows (suc k)) nine }
    ensures { AreMiddles table.now nine result }
{
    let [a, b, c, d, e, f, g, h, i] = nine;
    let [_, _, _, northwest] = table.quadrants(a);
    let [_, _, north_w, north_e] = table.quadrants(b);
    let [_, _, northeast, _] = table.quadrants(c);
    let [_, west_n, _, west_s] = table.quadrants(d);
    let [nw, ne, sw, se] = table.quadrants(e);
    let [east_n, _, east_s, _] = table.quadrants(f);
    let [_, southwest, _, _] = table.quadrants(g);
    let [south_w, south_e, _, _] = table.quadrants(h);
    let [southeast, _, _, _] = table.quadrants(i);
    [
        [northwest, north_w, west_n, nw],
        [north_e, northeast, ne, east_n],
        [west_s, sw, southwest, south_w],
        [se, east_s, south_e, southeast],
    ]
}

/// The square of the middles of the four squares that overlap in what nine make. These four aren't
/// made.
pub(crate) fn join_middles(table: &mut SquareTable<'_>, nine: [u32; 9]) -> Result<u32, TableFault>
    requires { (k : ℕ) × All (IsNumber table.old.rows (suc k)) nine }
    ensures grows { Grows table.old table.new }
    ensures square { IfOk result (GivesMiddles table.old nine table.new) }
    ensures adds { AddsMiddles table.old nine table.new }
    ensures full { result ≡ Err TableFault.NoRoom → IsFull table.new }
{
    let four = join_four(table, middles(table, nine))?;
    table.join_numbers(four)
}

/// The nine blocks of 4 by 4 cells that overlap in a square of 8 by 8, by rows.
#[tactic(auto, unfolding(square_table::specs::Squares::IsNumber))]
pub(crate) fn nine_blocks(table: &SquareTable<'_>, number: u32) -> [Block; 9]
    requires { IsNumber table.now.rows 3 number }
    ensures { AreBlocks table.now.rows result (nine_of (square_in table.now.rows 3 number)) }
{
    let [nw, ne, sw, se] = table.quadrants(number);
    let nw = table.quadrants(nw);
    let ne = table.quadrants(ne);
    let sw = table.quadrants(sw);
    let se = table.quadrants(se);
    [
        Block::of(nw),
        Block::of([nw[1], ne[0], nw[3], ne[2]]),
        Block::of(ne),
        Block::of([nw[2], nw[3], sw[0], sw[1]]),
        Block::of([nw[3], ne[2], sw[1], se[0]]),
        Block::of([ne[2], ne[3], se[0], se[1]]),
        Block::of(sw),
        Block::of([sw[1], se[0], sw[3], se[2]]),
        Block::of(se),
    ]
}

/// The four blocks that overlap in what the results of nine make, by rows.
pub(crate) fn four_blocks(nine: &[Block; 9]) -> [Block; 4]
    ensures { GiveFourBlocks nine.now result }
{
    let [a, b, c] = [nine[0].result, nine[1].result, nine[2].result];
    let [d, e, f] = [nine[3].result, nine[4].result, nine[5].result];
    let [g, h, i] = [nine[6].result, nine[7].result, nine[8].result];
    [
        Block::of([a, b, d, e]),
        Block::of([b, c, e, f]),
        Block::of([d, e, g, h]),
        Block::of([e, f, h, i]),
    ]
}

// The states of a square of level 1.
#[tactic(auto, unfolding(square_table::specs::Squares::IsNumber))]
fn states(table: &SquareTable<'_>, number: u32) -> [u8; 4]
    requires { IsNumber table.now.rows 1 number }
    ensures { result ≡ kids_at table.now.rows number }
{
    let [nw, ne, sw, se] = table.quadrants(number);
    [nw as u8, ne as u8, sw as u8, se as u8]
}

/// The four cells in the middle of a square of level 2 one generation later.
#[tactic(auto, unfolding(square_table::specs::Squares::IsNumber))]
pub(crate) fn later<Q: Ask>(
    table: &mut SquareTable<'_>,
    rule: &mut Q,
    number: u32,
) -> Result<u32, TableFault>
    requires { CanBePut (Q.state_count rule.old) table.old.rows number }
    ensures adds { Adds (later (Q.meaning rule.old) (square_in table.old.rows 2 number) ∷ [])
        table.old table.new }
    ensures square { IfOk result
        (GivesPut (Q.meaning rule.old) table.old number table.new) }
    ensures rule { KeepsRule Q.meaning Q.state_count rule.old rule.new }
    ensures asks { Q.asks rule.new ≡ Q.asks rule.old + 4 }
    ensures full { result ≡ Err TableFault.NoRoom → IsFull table.new }
{
    later_of(table, rule, table.quadrants(number))
}

/// The same of the block with these quadrants, which needn't be a square of the table.
pub(crate) fn later_of<Q: Ask>(
    table: &mut SquareTable<'_>,
    rule: &mut Q,
    quadrants: [u32; 4],
) -> Result<u32, TableFault>
    requires { BlockCanBePut (Q.state_count rule.old) table.old.rows quadrants }
    ensures adds { Adds (later (Q.meaning rule.old) (square_of table.old.rows 1 quadrants) ∷ [])
        table.old table.new }
    ensures square { IfOk result
        (GivesBlockPut (Q.meaning rule.old) table.old quadrants table.new) }
    ensures rule { KeepsRule Q.meaning Q.state_count rule.old rule.new }
    ensures asks { Q.asks rule.new ≡ Q.asks rule.old + 4 }
    ensures full { result ≡ Err TableFault.NoRoom → IsFull table.new }
{
    let [nw, ne, sw, se] = quadrants;
    let [nw, ne, sw, se] = ask_four(
        rule,
        states(table, nw),
        states(table, ne),
        states(table, sw),
        states(table, se),
    );
    table.join_numbers([u32::from(nw), u32::from(ne), u32::from(sw), u32::from(se)])
}
