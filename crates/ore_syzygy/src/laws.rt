//! The laws of blocks that are made of complete runs, and what kernels show of torsion, as contracts.
//!
//! The functions here have no answer and do nothing. `specs/Laws.antt` has the statements. `proofs/ValidBlocks.antt` proves
//! those of blocks, and those of torsion stand in `ore_laws/proofs/TorsionOrColumn.antt` and `KernelTorsion.antt`.

ghost use Rattle.ore_syzygy.specs.Laws.{ExactBlockIsValid, KernelIsTorsion, OutsideBlockIsValid, SyzygyShowsTorsion, TorsionOrColumn};

use ore_monomial::Signature;

/// The blocks that [`crate::exact_block`] and [`crate::outside_block`] make are valid, and of the signature: those of rows
/// that times a matrix are the syzygies, and those of a row of which a reduction leaves something.
pub fn law_blocks_valid(sig: &Signature)
    ensures exact { ExactBlockIsValid sig.now }
    ensures outside { OutsideBlockIsValid sig.now }
{}

/// A row is torsion modulo the rows of a matrix, or a column separates it from them; which of the two is found out. So what
/// takes the generators of a right kernel to zeros is torsion, and some generator of a left kernel shows it.
pub fn law_column(sig: &Signature)
    ensures column { TorsionOrColumn sig.now }
    ensures kernel { KernelIsTorsion sig.now }
    ensures syzygy { SyzygyShowsTorsion sig.now }
{}
