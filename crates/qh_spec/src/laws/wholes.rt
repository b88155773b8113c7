//! Laws of streams and messages that are whole in datagrams.

ghost use Rattle.std.specs.Prelude.{◌≡◌, ◌<◌, ℕ, List, [], ◌∷◌, length, slice_get, Some};
ghost use Rattle.qh_spec.specs.Carried.{Carries, CarriesEnd};
ghost use Rattle.qh_spec.specs.Lists.{In};
ghost use Rattle.qh_spec.specs.Message.{PlainMessage};
ghost use Rattle.qh_spec.specs.MessageRows.{get_message, other_message};
ghost use Rattle.qh_spec.specs.Same.{SameMessage, SameKind};
ghost use Rattle.qh_spec.specs.Spelling.{Spells};
ghost use Rattle.qh_spec.specs.Whole.{IsWholeStream, IsWhole};
ghost use Rattle.qh_spec.specs.WholeRows.{carrying_get, carrying_open_get};
ghost use Rattle.qh_spec.specs.declared.sides.Side.TheVariants.{Client, Server};
ghost use Rattle.qh_spec.specs.declared.sides.Side.{Side};

/// Datagrams hold a stream whole with one list of bytes at most, and one message of a kind, and whatever is the same as it. Bytes
/// that are carried up to an end are whole where the datagrams carry no two bytes at one place, none behind these, and no two ends.
/// The order of the datagrams doesn't count, nor how often one comes.
pub fn whole()
    ensures follows { (k : ℕ) (datagrams : List (List ℕ)) (sender : Side) (stream : ℕ) (bytes : List ℕ) (m : PlainMessage)
        → IsWholeStream k datagrams sender stream bytes → Spells bytes m → IsWhole k datagrams sender stream m }
    ensures carried { (k : ℕ) (datagrams : List (List ℕ)) (sender : Side) (stream : ℕ) (bytes : List ℕ)
        → ((offset byte : ℕ) → slice_get bytes offset ≡ Some byte → Carries k datagrams sender stream offset byte)
        → ((offset b c : ℕ) → Carries k datagrams sender stream offset b → Carries k datagrams sender stream offset c → b ≡ c)
        → ((offset byte : ℕ) → Carries k datagrams sender stream offset byte → offset < length bytes)
        → CarriesEnd k datagrams sender stream (length bytes)
        → ((m n : ℕ) → CarriesEnd k datagrams sender stream m → CarriesEnd k datagrams sender stream n → m ≡ n)
        → IsWholeStream k datagrams sender stream bytes }
    ensures one_stream { (k : ℕ) (datagrams : List (List ℕ)) (sender : Side) (stream : ℕ) (bytes others : List ℕ)
        → IsWholeStream k datagrams sender stream bytes → IsWholeStream k datagrams sender stream others → bytes ≡ others }
    ensures one { (k : ℕ) (datagrams : List (List ℕ)) (sender : Side) (stream : ℕ) (m n : PlainMessage)
        → IsWhole k datagrams sender stream m → IsWhole k datagrams sender stream n → SameKind m.head n.head → SameMessage m n }
    ensures same { (k : ℕ) (datagrams : List (List ℕ)) (sender : Side) (stream : ℕ) (m n : PlainMessage)
        → IsWhole k datagrams sender stream m → SameMessage m n → IsWhole k datagrams sender stream n }
    ensures any_order { (k : ℕ) (datagrams others : List (List ℕ)) → ((d : List ℕ) → In d datagrams → In d others) → ((d : List ℕ) → In d others → In d datagrams)
        → (sender : Side) (stream : ℕ) (m : PlainMessage) → IsWhole k datagrams sender stream m → IsWhole k others sender stream m }
{}

/// A datagram of the client with the bytes of a request and the end of stream 0 holds this request whole there, and no
/// other. It holds none of the server and none on another stream, without the end it holds none, and no datagrams hold none.
pub fn rows()
    ensures row { IsWhole 8 (carrying_get ∷ []) Client 0 get_message }
    ensures another { IsWhole 8 (carrying_get ∷ []) Client 0 other_message → ⊥ }
    ensures nothing { (k : ℕ) (sender : Side) (stream : ℕ) (m : PlainMessage) → IsWhole k [] sender stream m → ⊥ }
    ensures of_the_server { (m : PlainMessage) → IsWhole 8 (carrying_get ∷ []) Server 0 m → ⊥ }
    ensures elsewhere { (stream : ℕ) (m : PlainMessage) → 0 < stream → IsWhole 8 (carrying_get ∷ []) Client stream m → ⊥ }
    ensures endless { (m : PlainMessage) → IsWhole 8 (carrying_open_get ∷ []) Client 0 m → ⊥ }
{}
