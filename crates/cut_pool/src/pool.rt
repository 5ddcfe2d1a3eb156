ghost use Rattle.std.specs.Prelude.{◌≡◌, IfSome, MatchResult};
ghost use Rattle.cut_pool.specs.Tokens.{IsTokenOf, index_of, cut_of};

use item_lists::Items;
use slot_box::NamedCut;
use std::alloc::{AllocError, Global};
use std::sync::Wait;

/// The cuts that workers have found. Any number of threads share it.
#[derive(Drop)]
pub struct CutPool {
    cuts: boxcar::Vec<NamedCut>,
}

/// What stands for a cut of a pool.
#[derive(Drop)]
pub struct CutToken {
    pushed: boxcar::Pushed<NamedCut>,
}

pub type CutTokens = Items<CutToken>;

impl CutPool {
    /// The empty pool.
    pub fn new(alloc: Global) -> Result<CutPool, AllocError> {
        Ok(CutPool {
            cuts: boxcar::Vec::new(alloc)?,
        })
    }

    /// Puts a cut into the pool. Where memory is refused it comes back.
    pub fn push<R: Wait>(&self, rt: &R, cut: NamedCut) -> Result<CutToken, NamedCut>
        ensures { MatchResult result (λ token. IsTokenOf self.now token × (cut_of token ≡ cut)) (λ back. back ≡ cut) }
    {
        Ok(CutToken {
            pushed: self.cuts.push_shown(rt, cut)?,
        })
    }

    /// The cut of a token. It takes no memory.
    pub fn at(&self, token: &CutToken) -> &NamedCut
        requires { IsTokenOf self.now token.now }
        ensures { result.now ≡ cut_of token.now }
    {
        self.cuts.value(&token.pushed)
    }

    /// A token of this place, if a cut is seen there.
    pub fn visit(&self, index: u64) -> Option<CutToken>
        ensures { IfSome result (λ token. IsTokenOf self.now token × (index_of token ≡ index)) }
    {
        Some(CutToken {
            pushed: self.cuts.witness(index as usize)?,
        })
    }

    /// Tokens of one place stand for one cut: a call does nothing and tells so. It takes no memory.
    pub fn agrees(&self, a: &CutToken, b: &CutToken)
        requires a { IsTokenOf self.now a.now }
        requires b { IsTokenOf self.now b.now }
        requires place { index_of a.now ≡ index_of b.now }
        ensures { cut_of a.now ≡ cut_of b.now }
    {
        self.cuts.agrees(&a.pushed, &b.pushed);
    }
}

impl CutToken {
    /// The place of its cut in the pool. It takes no memory.
    pub fn index(&self) -> u64
        ensures { result ≡ index_of self.now }
    {
        self.pushed.index() as u64
    }
}

// Threads share the pool, and tokens go from thread to thread.
fn may_share<T: Sync>(_value: &T) {}

fn may_cross<T: Send>(_value: &T) {}

fn pool_and_tokens_may_cross(pool: &CutPool, token: &CutToken, tokens: &CutTokens) {
    may_share(pool);
    may_cross(pool);
    may_cross(token);
    may_cross(tokens);
}
