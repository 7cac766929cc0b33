// The blocks of a body: where a run of words ends, and in which of the four ways. Depends on `body` for the words, and
// on `reading` and `refusal` for what they are read as. specs/Block.antt says what a block is.
#![tactic(auto)]

ghost use Rattle.std.specs.Prelude.{◌≡◌, ◌+◌, ◌-◌, ◌<◌};
ghost use Rattle.body.specs.Body.{words_in};
ghost use Rattle.blocks.specs.Block.{kind_of, ended_as, ended_of, slot_end, block_of};
ghost use Rattle.blocks.specs.Private.Steps.{step_in, step_of};

mod extent;

use body::View;
pub use extent::Block;
use reading::Ending;
use refusal::Refusal;

// How a block ends.
#[derive(Clone, Copy, PartialEq, Eq)]
pub enum End {
    // After the slot of its last word.
    Slot = 1,
    // Before a slot that is refused or absent.
    NoSlot = 2,
    // Before a refused word.
    Refused = 3,
    // With the body.
    Body = 4,
    // With a word that ends it by itself. No reading does, so no block ends so.
    Here = 5,
}

// Its number, document 01's end kind.
impl From<End> for u8 {
    ghost from_gives = { λ e n. n ≡ kind_of e };

    fn from(e: End) -> u8 {
        e as u8
    }
}

// The block of a word with a mark from that word on; its slot is word n.
#[tactic(auto, using(body::proofs::Words::past_last), unfolding(crate::specs::Block::slot_end))]
fn slot_end(body: &[u8], v: View, n: usize) -> Block
    ensures { ended_as result ≡ slot_end v body.now (words_in body.now - n) n }
{
    let (end, words) = match body::decoded(body, v, n) {
        Ok(_) => (End::Slot, 2),
        Err(_) => (End::NoSlot, 1),
    };
    Block { end, words }
}

// The block from word n on, if it ends with that word or its slot; if not, it goes on after it. That word n is there
// is asked of the caller: a struct of body, view and word would have a reference in it, which `View` of `body` speaks
// against.
#[tactic(auto, unfolding(crate::specs::Private::Steps::step_of))]
fn step(body: &[u8], v: View, n: usize) -> Option<Block>
    requires { n < words_in body.now }
    ensures { step_in result ≡ step_of v body.now (words_in body.now - (n + 1)) n }
{
    let Ok(i) = body::decoded(body, v, n) else {
        return Some(Block {
            end: End::Refused,
            words: 0,
        });
    };
    match reading::ends(i) {
        Ending::On => None,
        Ending::Slot => Some(slot_end(body, v, n + 1)),
        Ending::Here => Some(Block {
            end: End::Here,
            words: 1,
        }),
    }
}

// The block from word n on.
pub fn block(body: &[u8], v: View, n: usize) -> Result<Block, Refusal>
    ensures { ended_of result ≡ block_of v body.now n }
{
    let words = body::count(body);
    if words <= n {
        return Err(Refusal::NoIndex);
    }
    let mut k = n;
    // Left by `break`, with the block as its value: a rule of the project (docs/DECISIONS.md, Forms).
    let block = loop {
        if words <= k {
            break Block {
                end: End::Body,
                words: k - n,
            };
        }
        if let Some(last) = step(body, v, k) {
            break Block {
                end: last.end,
                words: k - n + last.words,
            };
        }
        k += 1;
    };
    Ok(block)
}
