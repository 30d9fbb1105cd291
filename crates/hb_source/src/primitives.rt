/// The types of the primitives, in the order of their numbers.
pub const PRIMITIVES: &[u8] =
    b"addU, subU, mulU, andU, orU, xorU :: Unsigned -> Unsigned -> Unsigned
notU :: Unsigned -> Unsigned
shlU, shrU :: Unsigned -> Ix 32 -> Unsigned
divU, remU :: Unsigned -> NonZero Unsigned -> Unsigned
eqU, ltU :: Unsigned -> Unsigned -> Bool
ltS :: Signed -> Signed -> Bool
toSigned :: Unsigned -> Signed
fromSigned :: Signed -> Unsigned
nonZero :: Unsigned -> Maybe (NonZero Unsigned)
fromNonZero :: NonZero Unsigned -> Unsigned
fromBit :: Width n => Bit n -> Unsigned
toBit :: Width n => Unsigned -> Bit n
joinBits :: (n + m = p, Width n, Width m, Width p) => Bit n -> Bit m -> Bit p
highBits :: (n + m = p, Width n, Width m, Width p) => Bit p -> Bit n
lowBits :: (n + m = p, Width n, Width m, Width p) => Bit p -> Bit m
bitsOf :: BitRep t n => t -> Bit n
ofBits :: BitRep t n => Bit n -> t
fromIx :: Index n => Ix n -> Unsigned
toIx :: Index n => Unsigned -> Maybe (Ix n)
firstIx, lastIx :: Index n => Ix n
incIx, decIx :: Index n => Ix n -> Maybe (Ix n)
elemRef :: Ref (Array n a) -> Ix n -> Ref a
readRef :: Cell a t => Ref a -> M t
writeRef :: Cell a t => Ref a -> t -> M Unit
readPort :: In t -> M t
writePort :: Out t -> t -> M Unit
return :: a -> M a
halt :: Unsigned -> M a
";
