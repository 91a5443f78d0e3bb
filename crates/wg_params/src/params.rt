ghost use Rattle.std.specs.Prelude.{◌≡◌, ◌≤◌, true, if◌then◌else◌, IfOk, IfErr, Some, None, unwrap_or};
ghost use Rattle.std.specs.Option.{ForSome};
ghost use Rattle.wg_params.specs.Codes.{IsCode, is_gamma_or_delta, is_unary_gamma_or_delta, is_residual_code};
ghost use Rattle.wg_params.specs.Parameters.{AreCodes, IsWithinLimits, params_of, layout_of, has_its_codes, first_bad};
ghost use Rattle.wg_params.specs.declared.limits.TheConstants.{MOST_PAGES, MOST_ARCS, MOST_WINDOW, MOST_CHAIN, MOST_INTERVAL, MOST_ZETA};

use crate::limits::{MOST_ARCS, MOST_CHAIN, MOST_INTERVAL, MOST_PAGES, MOST_WINDOW, MOST_ZETA};
use crate::{BadParam, Code, Codes, Key, Layout};
use std::marker::Model;

/// The parameters of one archive, within their limits.
#[derive(Clone, Copy, Debug, PartialEq, Eq)]
pub struct Params {
    nodes: u64,
    arcs: u64,
    layout: Layout,
}

impl Model for Params {
    ghost use Rattle.wg_params.specs.Parameters.{Parameters, IsWithinLimits, params_of, layout_of};

    ghost Value = { Parameters };

    ghost view = { λ p. params_of p.layout p.nodes p.arcs };

    ghost invariant = { λ p. IsWithinLimits (params_of p.layout p.nodes p.arcs) };

    ghost inverse = { λ p. record { nodes = p.nodes; arcs = p.arcs; layout = layout_of p } };
}

fn is_gamma_or_delta(code: Code) -> bool
    ensures { result ≡ is_gamma_or_delta code }
{
    match code {
        Code::Gamma | Code::Delta => true,
        Code::Unary | Code::Zeta(_) | Code::Nibble => false,
    }
}

fn is_unary_gamma_or_delta(code: Code) -> bool
    ensures { result ≡ is_unary_gamma_or_delta code }
{
    match code {
        Code::Unary | Code::Gamma | Code::Delta => true,
        Code::Zeta(_) | Code::Nibble => false,
    }
}

fn is_residual_code(zeta: u32, code: Code) -> bool
    ensures { result ≡ is_residual_code zeta code }
{
    match code {
        Code::Gamma | Code::Delta | Code::Nibble => true,
        Code::Zeta(k) => k == zeta,
        Code::Unary => false,
    }
}

// The first of these keys that is out of its limits.
fn first_bad_number(nodes: u64, arcs: u64, layout: &Layout) -> Option<Key>
    ensures bad { ForSome result (λ key. first_bad (params_of layout.now nodes arcs) ≡ Some key) }
    ensures good { result ≡ None → first_bad (params_of layout.now nodes arcs)
        ≡ (if has_its_codes (params_of layout.now nodes arcs) then None else Some Key.CompressionFlags) }
    ensures within { result ≡ None → (nodes ≤ MOST_PAGES) × (arcs ≤ MOST_ARCS)
        × (layout.now.window ≤ MOST_WINDOW) × (unwrap_or layout.now.chain 0 ≤ MOST_CHAIN)
        × (layout.now.interval ≤ MOST_INTERVAL) × (1 ≤ layout.now.zeta) × (layout.now.zeta ≤ MOST_ZETA) }
{
    if nodes > MOST_PAGES {
        Some(Key::Nodes)
    } else if arcs > MOST_ARCS {
        Some(Key::Arcs)
    } else if layout.window > MOST_WINDOW {
        Some(Key::WindowSize)
    } else if layout.chain.unwrap_or(0) > MOST_CHAIN {
        Some(Key::MaxRefCount)
    } else if layout.interval > MOST_INTERVAL {
        Some(Key::MinIntervalLength)
    } else if layout.zeta == 0 || layout.zeta > MOST_ZETA {
        Some(Key::ZetaK)
    } else {
        None
    }
}

// Whether each field is in a code that it may have.
fn has_its_codes(layout: &Layout) -> bool
    ensures value { result ≡ has_its_codes (params_of layout.now 0 0) }
    ensures within { result ≡ true → AreCodes layout.now.zeta layout.now.codes }
{
    is_gamma_or_delta(layout.codes.outdegrees)
        && is_unary_gamma_or_delta(layout.codes.references)
        && is_unary_gamma_or_delta(layout.codes.block_counts)
        && is_gamma_or_delta(layout.codes.blocks)
        && is_residual_code(layout.zeta, layout.codes.residuals)
        && is_gamma_or_delta(layout.codes.offsets)
}

impl Params {
    /// The parameters of an archive, one by one: pages and arcs, how many pages back a reference may reach, how many
    /// references may lead from one page to the next (`None` for any number), the least length of an interval (0 for no
    /// intervals), the parameter k of zeta, and the code of each field. The first that is out of its limits is
    /// refused by its key; a code that its field may not have counts as the compression flags. It takes no memory.
    pub fn new(
        nodes: u64,
        arcs: u64,
        window: u64,
        chain: Option<u64>,
        interval: u64,
        zeta: u32,
        outdegrees: Code,
        references: Code,
        block_counts: Code,
        blocks: Code,
        residuals: Code,
        offsets: Code,
    ) -> Result<Params, BadParam>
        ensures ok { IfOk result (λ p. p ≡ record {
          nodes = nodes;
          arcs = arcs;
          window = window;
          chain = chain;
          interval = interval;
          zeta = zeta;
          outdegrees = outdegrees;
          references = references;
          block_counts = block_counts;
          blocks = blocks;
          residuals = residuals;
          offsets = offsets;
        }) }
        ensures within { IfOk result (λ p. first_bad p ≡ None) }
        ensures bad { IfErr result (λ e. first_bad (record {
          nodes = nodes;
          arcs = arcs;
          window = window;
          chain = chain;
          interval = interval;
          zeta = zeta;
          outdegrees = outdegrees;
          references = references;
          block_counts = block_counts;
          blocks = blocks;
          residuals = residuals;
          offsets = offsets;
        }) ≡ Some e.key) }
    {
        let codes = Codes {
            outdegrees,
            references,
            block_counts,
            blocks,
            residuals,
            offsets,
        };
        let layout = Layout {
            window,
            chain,
            interval,
            zeta,
            codes,
        };
        Params::with_layout(nodes, arcs, layout)
    }

    /// The parameters of an archive of so many pages and arcs in this layout, under the same limits.
    pub fn with_layout(nodes: u64, arcs: u64, layout: Layout) -> Result<Params, BadParam>
        ensures ok { IfOk result (λ p. p ≡ params_of layout nodes arcs) }
        ensures within { IfOk result (λ p. first_bad p ≡ None) }
        ensures bad { IfErr result (λ e. first_bad (params_of layout nodes arcs) ≡ Some e.key) }
    {
        if let Some(key) = first_bad_number(nodes, arcs, &layout) {
            return Err(BadParam { key });
        }
        if !has_its_codes(&layout) {
            return Err(BadParam {
                key: Key::CompressionFlags,
            });
        }
        Ok(Params {
            nodes,
            arcs,
            layout,
        })
    }

    /// How many pages there are.
    pub fn nodes(&self) -> u64
        ensures value { result ≡ self.now.nodes }
        ensures within { self.now.nodes ≤ MOST_PAGES }
        ensures limits { IsWithinLimits self.now }
    {
        self.nodes
    }

    /// How many arcs there are.
    pub fn arcs(&self) -> u64
        ensures value { result ≡ self.now.arcs }
        ensures within { self.now.arcs ≤ MOST_ARCS }
    {
        self.arcs
    }

    /// How the archive is written.
    pub fn layout(&self) -> Layout
        ensures { result ≡ layout_of self.now }
    {
        self.layout
    }

    /// How many pages back a reference may reach; 0 means that no record has a reference.
    pub fn window(&self) -> u64
        ensures value { result ≡ self.now.window }
        ensures within { self.now.window ≤ MOST_WINDOW }
    {
        self.layout.window
    }

    /// How many references may lead from one page to the next, or none for any number.
    pub fn chain(&self) -> Option<u64>
        ensures value { result ≡ self.now.chain }
        ensures within { unwrap_or self.now.chain 0 ≤ MOST_CHAIN }
    {
        self.layout.chain
    }

    /// The least length of an interval; 0 means that no record has intervals.
    pub fn interval(&self) -> u64
        ensures value { result ≡ self.now.interval }
        ensures within { self.now.interval ≤ MOST_INTERVAL }
    {
        self.layout.interval
    }

    /// The parameter k of zeta codes.
    pub fn zeta(&self) -> u32
        ensures value { result ≡ self.now.zeta }
        ensures within { (1 ≤ self.now.zeta) × (self.now.zeta ≤ MOST_ZETA) }
    {
        self.layout.zeta
    }

    /// The code of outdegrees.
    pub fn outdegrees(&self) -> Code
        ensures value { result ≡ self.now.outdegrees }
        ensures code { IsCode self.now.outdegrees }
    {
        self.layout.codes.outdegrees
    }

    /// The code of references.
    pub fn references(&self) -> Code
        ensures value { result ≡ self.now.references }
        ensures code { IsCode self.now.references }
    {
        self.layout.codes.references
    }

    /// The code of block counts.
    pub fn block_counts(&self) -> Code
        ensures value { result ≡ self.now.block_counts }
        ensures code { IsCode self.now.block_counts }
    {
        self.layout.codes.block_counts
    }

    /// The code of blocks.
    pub fn blocks(&self) -> Code
        ensures value { result ≡ self.now.blocks }
        ensures code { IsCode self.now.blocks }
    {
        self.layout.codes.blocks
    }

    /// The code of residuals.
    pub fn residuals(&self) -> Code
        ensures value { result ≡ self.now.residuals }
        ensures code { IsCode self.now.residuals }
    {
        self.layout.codes.residuals
    }

    /// The code of the words of an offsets file.
    pub fn offsets(&self) -> Code
        ensures value { result ≡ self.now.offsets }
        ensures code { IsCode self.now.offsets }
        ensures kind { is_gamma_or_delta self.now.offsets ≡ true }
    {
        self.layout.codes.offsets
    }
}
