//! A piece of a code.
ghost use Rattle.std.specs.Prelude.{◌≡◌, ◌<◌, length, ⊤};
ghost use Rattle.code.specs.Calls.{part};

use code::Code;
use std::alloc::AllocError;
use std::marker::PhantomData;

/// The w bytes of a piece, for the code's w.
pub struct PieceOf<'a, C: Code> {
    pub bytes: &'a [u8],
    code: PhantomData<C>,
    pub ghost long: { length bytes.now ≡ C.Code.meaning.w },
}

// By hand: a derive would ask it of the code too, and `derive_where` is refused over a ghost field.
impl<'a, C: Code> Clone for PieceOf<'a, C> {
    ghost is_clone = { λ x y. y ≡ x };

    ghost is_infallible = { λ _. ⊤ };

    fn clone(&self) -> Result<PieceOf<'a, C>, AllocError> {
        Ok(*self)
    }
}

impl<'a, C: Code> Copy for PieceOf<'a, C> {}

impl<'a, C: Code> PieceOf<'a, C> {
    // The piece at place j of a block that is cut into k places.
    pub(crate) fn at(block: &'a [u8; 24], j: usize) -> PieceOf<'a, C>
        requires { j < C.Code.meaning.k }
        ensures { result.bytes.now ≡ part C.Code.meaning.w block.now j }
    {
        let w = C::width();
        PieceOf {
            bytes: &block[j * w..j * w + w],
            code: PhantomData,
        }
    }
}
