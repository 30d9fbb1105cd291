/// The text that stands before each source.
pub const PRELUDE: &[u8] = b"infixl 9 @
infixl 8 `shl`, `shr`
infixl 7 *, .&.
infixl 6 +, -, .^., .|.
infixr 5 #
infix 4 ==, /=, <, <=, >, >=
infixr 3 &&
infixr 2 ||
infixr 0 $
bitdata Bool = False [B0] | True [B1]
data Unit = Unit
data Maybe a = Nothing | Just a
data Pair a b = Pair a b
class Eq a where
  (==) :: a -> a -> Bool
class Eq a => Ord a where
  (<) :: a -> a -> Bool
class Num a where
  (+), (-), (*) :: a -> a -> a
class Bits a where
  (.&.), (.|.), (.^.) :: a -> a -> a
  complement :: a -> a
  shl, shr :: a -> Ix 32 -> a
instance Eq Unsigned where x == y = eqU x y
instance Eq Signed where x == y = eqU (fromSigned x) (fromSigned y)
instance Eq (Bit n) if Width n where x == y = eqU (fromBit x) (fromBit y)
instance Eq (Ix n) if Index n where x == y = eqU (fromIx x) (fromIx y)
instance Eq Bool where
  True == b = b
  False == b = not b
instance Eq (Maybe a) if Eq a where
  Nothing == Nothing = True
  (Just x) == (Just y) = x == y
  _ == _ = False
instance Ord Unsigned where x < y = ltU x y
instance Ord Signed where x < y = ltS x y
instance Ord (Bit n) if Width n where x < y = ltU (fromBit x) (fromBit y)
instance Ord (Ix n) if Index n where x < y = ltU (fromIx x) (fromIx y)
instance Num Unsigned where
  x + y = addU x y
  x - y = subU x y
  x * y = mulU x y
instance Num Signed where
  x + y = toSigned (addU (fromSigned x) (fromSigned y))
  x - y = toSigned (subU (fromSigned x) (fromSigned y))
  x * y = toSigned (mulU (fromSigned x) (fromSigned y))
instance Num (Bit n) if Width n where
  x + y = toBit (addU (fromBit x) (fromBit y))
  x - y = toBit (subU (fromBit x) (fromBit y))
  x * y = toBit (mulU (fromBit x) (fromBit y))
instance Bits Unsigned where
  x .&. y = andU x y
  x .|. y = orU x y
  x .^. y = xorU x y
  complement x = notU x
  shl x i = shlU x i
  shr x i = shrU x i
instance Bits (Bit n) if Width n where
  x .&. y = toBit (andU (fromBit x) (fromBit y))
  x .|. y = toBit (orU (fromBit x) (fromBit y))
  x .^. y = toBit (xorU (fromBit x) (fromBit y))
  complement x = toBit (notU (fromBit x))
  shl x i = toBit (shlU (fromBit x) i)
  shr x i = toBit (shrU (fromBit x) i)
(/=) :: Eq a => a -> a -> Bool
x /= y = not (x == y)
(>), (<=), (>=) :: Ord a => a -> a -> Bool
x > y = y < x
x <= y = not (y < x)
x >= y = not (x < y)
not :: Bool -> Bool
not True = False
not False = True
(&&), (||) :: Bool -> Bool -> Bool
True && b = b
False && b = False
True || b = True
False || b = b
($) :: (a -> b) -> a -> b
f $ x = f x
(#) :: (n + m = p, Width n, Width m, Width p) => Bit n -> Bit m -> Bit p
x # y = joinBits x y
(@) :: Ref (Array n a) -> Ix n -> Ref a
r @ i = elemRef r i
when, unless :: Bool -> M Unit -> M Unit
when c m = if c then m else return Unit
unless c m = if c then return Unit else m
forever :: M a -> M Unit
forever m = do { m; forever m }
forFrom :: Index n => (Ix n -> M Unit) -> Ix n -> M Unit
forFrom f i = do { f i; case incIx i of { Nothing -> return Unit; Just j -> forFrom f j } }
";
