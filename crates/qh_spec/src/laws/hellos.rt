//! Laws of the hello: it has one reading, what is written is read back, what it says, and when it is refused.

ghost use Rattle.std.specs.Prelude.{◌≡◌, ◌++◌, ◌<◌, ◌≤◌, ◌⊎◌, ℕ, min, List, [], ◌∷◌, length, codes, Option, Some, None};
ghost use Rattle.qh_spec.specs.Hello.{Hello, IsHello, IsHelloOf, HasSpelling, hello_bytes, SaysNumber, FirstLimits, SaysLimits, SaysIdleTimeout, SaysIdLimit, SaysDatagramSize, SaysSourceId, SaysOriginalId, SaysRetryId, SaysResetToken, SaysServerName, idle_in_force, Greeting, hello_of, IsSayable};
ghost use Rattle.qh_spec.specs.HelloFaults.{IdsUsed, HelloFault, NotAHello, LongName, RepeatedId, ServerOnly, NotANumber, OtherId, TokenLength, OutOfRange, IsAcceptable, HasHelloFault, IsHelloFault};
ghost use Rattle.qh_spec.specs.HelloRows.{full_greeting, full_bytes, plain_greeting, plain_bytes, client_hello_bytes, client_hello, client_limits, client_ids, short_hello, plain_hello, source_bytes, source, original_bytes, original, least_ids, most_streams, known_at_server, known_at_client, short_token};
ghost use Rattle.qh_spec.specs.declared.sides.Side.TheVariants.{Client, Server};
ghost use Rattle.qh_spec.specs.declared.sides.Side.{Side};

/// No hello begins another, and what is written is one: so a hello that is written is read back, whatever follows it.
pub fn reading()
    ensures one { (a b x y : List ℕ) (h g : Hello) → IsHello a h → IsHello b g → a ++ x ≡ b ++ y → (h ≡ g) × (x ≡ y) }
    ensures written { (h : Hello) → HasSpelling h → IsHello (hello_bytes h) h }
    ensures read_back { (h g : Hello) (a x y : List ℕ) → HasSpelling h → IsHello a g → hello_bytes h ++ x ≡ a ++ y → g ≡ h }
{}

/// A hello says one number of each parameter, one set of limits, one size of DATAGRAM frames and one reset token.
pub fn saying()
    ensures one_number { (id default m n : ℕ) (h : Hello) → SaysNumber id default h m → SaysNumber id default h n → m ≡ n }
    ensures one_limits { (h : Hello) (l m : FirstLimits) → SaysLimits h l → SaysLimits h m → l ≡ m }
    ensures one_size { (h : Hello) (m n : Option ℕ) → SaysDatagramSize h m → SaysDatagramSize h n → m ≡ n }
    ensures one_token { (h : Hello) (m n : Option (List ℕ)) → SaysResetToken h m → SaysResetToken h n → m ≡ n }
{}

/// The hello of a greeting has a spelling, and says what the greeting has.
pub fn greeting()
    ensures spelling { (g : Greeting) → IsSayable g → HasSpelling (hello_of g) }
    ensures limits { (g : Greeting) → IsSayable g → SaysLimits (hello_of g) g.limits }
    ensures idle { (g : Greeting) → IsSayable g → SaysIdleTimeout (hello_of g) g.idle }
    ensures id_limit { (g : Greeting) → IsSayable g → SaysIdLimit (hello_of g) g.id_limit }
    ensures source_id { (g : Greeting) → SaysSourceId (hello_of g) g.source_id }
    ensures original_id { (g : Greeting) → SaysOriginalId (hello_of g) g.original_id }
    ensures retry_id { (g : Greeting) → SaysRetryId (hello_of g) g.retry_id }
    ensures reset_token { (g : Greeting) → SaysResetToken (hello_of g) g.reset_token }
    ensures server_name { (g : Greeting) → SaysServerName (hello_of g) g.server_name }
    ensures datagram { (g : Greeting) → IsSayable g → SaysDatagramSize (hello_of g) g.datagram }
{}

/// The idle timeout that is in force between two ends: none if neither says one, the only one, or the lesser. Both ends have the same,
/// and it is no longer than what an end said.
pub fn idle_times()
    ensures neither { idle_in_force 0 0 ≡ None }
    ensures own_alone { (own : ℕ) → 0 < own → idle_in_force own 0 ≡ Some own }
    ensures peer_alone { (peer : ℕ) → 0 < peer → idle_in_force 0 peer ≡ Some peer }
    ensures lesser { (own peer : ℕ) → 0 < own → 0 < peer → idle_in_force own peer ≡ Some (min own peer) }
    ensures same_at_both { (own peer : ℕ) → idle_in_force own peer ≡ idle_in_force peer own }
    ensures none { (own peer : ℕ) → idle_in_force own peer ≡ None → (own ≡ 0) × (peer ≡ 0) }
    ensures within { (own peer n : ℕ) → idle_in_force own peer ≡ Some n → (0 < n) × (0 < own → n ≤ own) × (0 < peer → n ≤ peer) }
{}

/// The idle timeouts in force between ends of which neither, one or both say one. It is not the greater of two, nor none where only one
/// says none.
pub fn idle_rows()
    ensures neither { idle_in_force 0 0 ≡ None }
    ensures peer_alone { idle_in_force 0 30000 ≡ Some 30000 }
    ensures own_alone { idle_in_force 30000 0 ≡ Some 30000 }
    ensures peer_less { idle_in_force 30000 20000 ≡ Some 20000 }
    ensures own_less { idle_in_force 20000 30000 ≡ Some 20000 }
    ensures equal { idle_in_force 30000 30000 ≡ Some 30000 }
    ensures near_greater { idle_in_force 30000 20000 ≡ Some 30000 → ⊥ }
    ensures near_zero { (idle_in_force 0 30000 ≡ Some 0 → ⊥) × (idle_in_force 30000 0 ≡ Some 0 → ⊥) × (idle_in_force 0 0 ≡ Some 0 → ⊥) }
    ensures near_none { (idle_in_force 0 30000 ≡ None → ⊥) × (idle_in_force 30000 0 ≡ None → ⊥) }
{}

/// Bytes have a fault or are acceptable, and not both; of several faults the first is one. What an end writes is acceptable to a
/// reader for whom the ids that it gives are the ones that were used.
pub fn faults()
    ensures exclusive { (sender : Side) (used : IdsUsed) (bytes : List ℕ) (h : Hello) (fault : HelloFault) → IsAcceptable sender used bytes h
        → HasHelloFault sender used bytes fault → ⊥ }
    ensures either { (sender : Side) (used : IdsUsed) (bytes : List ℕ) → ((h : Hello) × IsAcceptable sender used bytes h)
        ⊎ ((fault : HelloFault) × IsHelloFault sender used bytes fault) }
    ensures one { (sender : Side) (used : IdsUsed) (bytes : List ℕ) (f g : HelloFault) → IsHelloFault sender used bytes f → IsHelloFault sender used bytes g → f ≡ g }
    ensures one_hello { (sender : Side) (used : IdsUsed) (bytes : List ℕ) (g h : Hello) → IsAcceptable sender used bytes g → IsAcceptable sender used bytes h → g ≡ h }
    ensures written { (g : Greeting) → IsSayable g → IsAcceptable g.sender (record { original = g.original_id; source = g.source_id; retry = g.retry_id }) (hello_bytes (hello_of g)) (hello_of g) }
{}

/// A client's hello, in bytes and what it says. What a hello doesn't say has its default. A number may stand in any form, the
/// parameters in any order, and one with an unknown id is skipped. Two ids and 2^60 streams are in range.
pub fn rows()
    ensures row { IsHello client_hello_bytes client_hello }
    ensures limits { SaysLimits client_hello client_limits }
    ensures others { SaysIdleTimeout client_hello 30000 × SaysIdLimit client_hello 8 × SaysDatagramSize client_hello None × SaysSourceId client_hello client_ids.source }
    ensures near_others { (SaysIdleTimeout client_hello 0 → ⊥) × (SaysIdLimit client_hello 2 → ⊥) }
    ensures acceptable { IsAcceptable Client client_ids client_hello_bytes client_hello }
    ensures defaults { SaysLimits (plain_hello Client (source ∷ [])) (record { max_data = 0; bidi_local = 0; bidi_remote = 0; uni = 0; max_bidi = 0; max_uni = 0 })
        × SaysIdleTimeout (plain_hello Client (source ∷ [])) 0 × SaysIdLimit (plain_hello Client (source ∷ [])) 2 × SaysDatagramSize (plain_hello Client (source ∷ [])) None }
    ensures silent { IsAcceptable Client known_at_server (short_hello Client source_bytes) (plain_hello Client (source ∷ [])) }
    ensures server { IsAcceptable Server known_at_client (short_hello Server (source_bytes ++ original_bytes)) (plain_hello Server (source ∷ original ∷ [])) }
    ensures at_bounds { IsAcceptable Client known_at_server (short_hello Client (source_bytes ++ 14 ∷ 1 ∷ 2 ∷ 9 ∷ 8 ∷ 208 ∷ 0 ∷ 0 ∷ 0 ∷ 0 ∷ 0 ∷ 0 ∷ 0 ∷ []))
        (plain_hello Client (source ∷ least_ids ∷ most_streams ∷ [])) }
{}

/// The hello of a server that says all that it may has its ids and its token, and that of a client that says as little as it may has
/// none of them; both have their numbers.
pub fn said_rows()
    ensures full { SaysOriginalId (hello_of full_greeting) (Some (208 ∷ 1 ∷ [])) × SaysRetryId (hello_of full_greeting) (Some (193 ∷ []))
        × SaysResetToken (hello_of full_greeting) (Some (short_token ++ 16 ∷ [])) × SaysServerName (hello_of full_greeting) [] }
    ensures plain { SaysOriginalId (hello_of plain_greeting) None × SaysRetryId (hello_of plain_greeting) None
        × SaysResetToken (hello_of plain_greeting) None × SaysServerName (hello_of plain_greeting) (codes "a.test") }
    ensures numbers { SaysIdleTimeout (hello_of full_greeting) 30000 × SaysIdLimit (hello_of full_greeting) 8 × SaysDatagramSize (hello_of full_greeting) (Some 1200)
        × SaysIdleTimeout (hello_of plain_greeting) 0 × SaysIdLimit (hello_of plain_greeting) 2 × SaysDatagramSize (hello_of plain_greeting) None }
    ensures near_full { (SaysResetToken (hello_of full_greeting) None → ⊥) × (SaysResetToken (hello_of full_greeting) (Some short_token) → ⊥)
        × (SaysOriginalId (hello_of full_greeting) None → ⊥) × (SaysRetryId (hello_of full_greeting) (Some (208 ∷ 1 ∷ [])) → ⊥) }
    ensures near_plain { (bytes : List ℕ) → (SaysResetToken (hello_of plain_greeting) (Some bytes) → ⊥) × (SaysOriginalId (hello_of plain_greeting) (Some bytes) → ⊥)
        × (SaysRetryId (hello_of plain_greeting) (Some bytes) → ⊥) }
    ensures near_name { SaysServerName (hello_of plain_greeting) [] → ⊥ }
{}

/// What a server writes that says all that it may, and what a client writes that says as little as it may, byte by byte.
pub fn written_rows()
    ensures full { hello_bytes (hello_of full_greeting) ≡ full_bytes }
    ensures full_sayable { IsSayable full_greeting }
    ensures plain { hello_bytes (hello_of plain_greeting) ≡ plain_bytes }
    ensures plain_sayable { IsSayable plain_greeting }
    ensures near_sayable { IsSayable (record plain_greeting { id_limit = 1 }) → ⊥ }
    ensures near_client { (token : List ℕ) → IsSayable (record plain_greeting { reset_token = Some token }) → ⊥ }
    ensures short_form { short_hello Server (source_bytes ++ original_bytes) ≡ 2 ∷ 0 ∷ 8 ∷ 15 ∷ 2 ∷ 192 ∷ 1 ∷ 0 ∷ 2 ∷ 208 ∷ 1 ∷ [] }
{}

/// Bytes that are no hello: one that is cut anywhere, one with bytes behind it, one of the other side, and one with a value that is cut.
pub fn near_hellos()
    ensures cut { (sender : Side) (used : IdsUsed) (front rest : List ℕ) (h : Hello) → IsHelloOf sender (front ++ rest) h → 0 < length rest → IsHelloFault sender used front NotAHello }
    ensures left_over { (sender : Side) (used : IdsUsed) (bytes rest : List ℕ) (h : Hello) → IsHelloOf sender bytes h → 0 < length rest → IsHelloFault sender used (bytes ++ rest) NotAHello }
    ensures wrong_side { (used : IdsUsed) → IsHelloFault Server used client_hello_bytes NotAHello }
    ensures nothing { (sender : Side) (used : IdsUsed) → IsHelloFault sender used [] NotAHello }
    ensures cut_value { (used : IdsUsed) → IsHelloFault Client used (short_hello Client (15 ∷ 3 ∷ 192 ∷ 1 ∷ [])) NotAHello }
    ensures cut_id { (used : IdsUsed) → IsHelloFault Client used (short_hello Client (64 ∷ [])) NotAHello }
{}

/// Hellos that are refused: for a long name, a repeated id, also an unknown one, what a client may not say, a number with bytes behind
/// it or without any, an id that is another, absent or not due, a token that is too short, numbers out of range. The first fault counts.
pub fn fault_rows()
    ensures long_name { (used : IdsUsed) (h : Hello) → HasSpelling h → 255 < length h.server_name → IsHelloFault h.sender used (hello_bytes h) LongName }
    ensures repeated { (used : IdsUsed) → IsHelloFault Client used (short_hello Client (source_bytes ++ source_bytes)) RepeatedId }
    ensures unknown_repeated { (used : IdsUsed) → IsHelloFault Client used (short_hello Client (27 ∷ 0 ∷ (source_bytes ++ 27 ∷ 1 ∷ 7 ∷ []))) RepeatedId }
    ensures token_from_client { (used : IdsUsed) → IsHelloFault Client used (short_hello Client (2 ∷ 15 ∷ (short_token ++ source_bytes))) ServerOnly }
    ensures original_from_client { (used : IdsUsed) → IsHelloFault Client used (short_hello Client (original_bytes ++ source_bytes)) ServerOnly }
    ensures bytes_behind { (used : IdsUsed) → IsHelloFault Client used (short_hello Client (4 ∷ 2 ∷ 5 ∷ 0 ∷ [])) NotANumber }
    ensures no_bytes { (used : IdsUsed) → IsHelloFault Client used (short_hello Client (4 ∷ 0 ∷ [])) NotANumber }
    ensures another_source { IsHelloFault Client client_ids (short_hello Client source_bytes) OtherId }
    ensures no_source { IsHelloFault Client known_at_server (short_hello Client []) OtherId }
    ensures no_original { IsHelloFault Server known_at_client (short_hello Server source_bytes) OtherId }
    ensures retry_not_due { IsHelloFault Server known_at_client (short_hello Server (original_bytes ++ (source_bytes ++ 16 ∷ 0 ∷ []))) OtherId }
    ensures token_length { IsHelloFault Server known_at_client (short_hello Server (original_bytes ++ (2 ∷ 15 ∷ (short_token ++ source_bytes)))) TokenLength }
    ensures few_ids { IsHelloFault Client known_at_server (short_hello Client (source_bytes ++ 14 ∷ 1 ∷ 1 ∷ [])) OutOfRange }
    ensures many_streams { IsHelloFault Client known_at_server (short_hello Client (source_bytes ++ 8 ∷ 8 ∷ 208 ∷ 0 ∷ 0 ∷ 0 ∷ 0 ∷ 0 ∷ 0 ∷ 1 ∷ [])) OutOfRange }
{}
