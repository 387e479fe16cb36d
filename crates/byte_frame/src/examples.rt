//! The readers at short bytes, and a frame byte by byte.

ghost use Rattle.std.specs.Prelude.{◌≡◌, ◌++◌, [], ◌∷◌, Some, None, codes, drop, replicate, take, negsuc, nat_lt, true, false};
ghost use Rattle.std.specs.Int.{w8, w16, w64};
ghost use Rattle.byte_frame.specs.FrameExamples.{small};
ghost use Rattle.byte_frame.specs.FrameReading.{before_digest_at};
ghost use Rattle.byte_frame.specs.Frames.{before_digest};
ghost use Rattle.byte_frame.specs.Reading.{number_at, signed_at, bytes_at, list_at, counted_at, sized_at, tagged_at, all_of};
ghost use Rattle.byte_frame.specs.Spelling.{rises};

/// Numbers are big endian, counts come first, and a reader stops where bytes are missing.
pub fn worked_examples()
    ensures number { number_at w16 (1 ∷ 2 ∷ 3 ∷ []) ≡ Some (258, 3 ∷ []) }
    ensures missing { number_at w16 (1 ∷ []) ≡ None }
    ensures signed { signed_at w64 (255 ∷ 255 ∷ 255 ∷ 255 ∷ 255 ∷ 255 ∷ 255 ∷ 254 ∷ []) ≡ Some (negsuc 1, []) }
    ensures bytes { bytes_at 2 (7 ∷ 8 ∷ 9 ∷ []) ≡ Some (7 ∷ 8 ∷ [], 9 ∷ []) }
    ensures list { list_at 2 (number_at w8) (0 ∷ 0 ∷ 0 ∷ 2 ∷ 5 ∷ 6 ∷ 7 ∷ []) ≡ Some (5 ∷ 6 ∷ [], 7 ∷ []) }
    ensures limit { list_at 1 (number_at w8) (0 ∷ 0 ∷ 0 ∷ 2 ∷ 5 ∷ 6 ∷ []) ≡ None }
    ensures counted { counted_at bytes_at (1 ∷ 2 ∷ []) (0 ∷ 0 ∷ 0 ∷ 2 ∷ 5 ∷ 6 ∷ 7 ∷ []) ≡ Some ((5 ∷ []) ∷ (6 ∷ 7 ∷ []) ∷ [], []) }
    ensures sized { sized_at w8 (λ n. nat_lt n 3) (2 ∷ 5 ∷ 6 ∷ []) ≡ Some (5 ∷ 6 ∷ [], []) }
    ensures tagged { tagged_at 4 (number_at w8) (4 ∷ 9 ∷ []) ≡ Some (9, []) }
    ensures all { all_of (number_at w8) (4 ∷ 9 ∷ []) ≡ None }
    ensures rising { rises nat_lt (1 ∷ 2 ∷ 4 ∷ []) ≡ true }
    ensures equal { rises nat_lt (1 ∷ 2 ∷ 2 ∷ []) ≡ false }
{}

/// What stands before the digest of a frame with a body of two bytes, and what can't stand there.
pub fn worked_frames()
    ensures put { before_digest small ≡ codes "CUBEFRM1" ++ 1 ∷ 2 ∷ [] ++ replicate 32 9 ++ 0 ∷ 0 ∷ 0 ∷ 0 ∷ 0 ∷ 0 ∷ 0 ∷ 2 ∷ 5 ∷ 6 ∷ [] }
    ensures taken { all_of before_digest_at (before_digest small) ≡ Some small }
    ensures cut { all_of before_digest_at (take 51 (before_digest small)) ≡ None }
    ensures more { all_of before_digest_at (before_digest small ++ 7 ∷ []) ≡ None }
    ensures magic { all_of before_digest_at (0 ∷ drop 1 (before_digest small)) ≡ None }
{}
