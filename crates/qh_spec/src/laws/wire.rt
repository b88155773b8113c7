//! Laws of what stands in datagrams: numbers, frames, field sections, packets, and what they carry.

ghost use Rattle.std.specs.Prelude.{◌≡◌, ◌<◌, ◌≤◌, ◌^◌, ◌++◌, ◌⊎◌, ℕ, List, [], ◌∷◌, length, get_or, Some, None};
ghost use Rattle.std.specs.List.{AllByRecursion};
ghost use Rattle.qh_spec.specs.Acknowledged.{InRanges, AreRanges, Covers};
ghost use Rattle.qh_spec.specs.Carried.{Carries, CarriesEnd};
ghost use Rattle.qh_spec.specs.Datagram.{Packet, IsInitialForm, IsInitialPacket, HasPacket};
ghost use Rattle.qh_spec.specs.Fields.{Field};
ghost use Rattle.qh_spec.specs.FrameViews.{stream_of, MayBeInitial, AreInitialFrames};
ghost use Rattle.qh_spec.specs.HttpFrame.{HttpFrame, IsHttpFrame, AreHttpFrames, http_frame, headers_frame};
ghost use Rattle.qh_spec.specs.PrefixInteger.{IsPrefixed, prefixed};
ghost use Rattle.qh_spec.specs.QuicFrame.{StreamFrame, IsStreamFrame, stream_frame};
ghost use Rattle.qh_spec.specs.QuicFrames.{Value, QuicFrame, IsQuicFrame, AreQuicFrames};
ghost use Rattle.qh_spec.specs.Section.{IsSection, section_bytes};
ghost use Rattle.qh_spec.specs.StaticTable.{static_table};
ghost use Rattle.qh_spec.specs.StreamId.{stream_id};
ghost use Rattle.qh_spec.specs.Tag.{IsTag};
ghost use Rattle.qh_spec.specs.Varint.{IsVarint, varint};
ghost use Rattle.qh_spec.specs.WireRows.{get_section, get_fields, forged, forged_packet, initial_packet, two_packets, misnumbered, refused_part, carrying_hi, hi_run, hi_frame, ack_bytes, ack_frame};
ghost use Rattle.qh_spec.specs.declared.sides.Dir.TheVariants.{Bi, Uni};
ghost use Rattle.qh_spec.specs.declared.sides.Side.TheVariants.{Client, Server};
ghost use Rattle.qh_spec.specs.declared.sides.Side.{Side};
ghost use Rattle.qh_spec.specs.declared.sides.Space.{Space};

/// The shortest form of a number is a form, and no form of a number begins another (RFC 9000, section 16). The
/// rows are those of appendix A.1.
pub fn numbers()
    ensures shortest { (n : ℕ) → n < 2 ^ 62 → IsVarint (varint n) n }
    ensures prefix_free { (a b x y : List ℕ) (m n : ℕ) → IsVarint a m → IsVarint b n → a ++ x ≡ b ++ y → (a ≡ b) × (m ≡ n) }
    ensures rows { IsVarint (194 ∷ 25 ∷ 124 ∷ 94 ∷ 255 ∷ 20 ∷ 232 ∷ 140 ∷ []) 151288809941952652 × IsVarint (157 ∷ 127 ∷ 62 ∷ 125 ∷ []) 494878333
        × IsVarint (123 ∷ 189 ∷ []) 15293 × IsVarint (37 ∷ []) 37 × IsVarint (64 ∷ 37 ∷ []) 37 }
    ensures near_row { IsVarint (64 ∷ 37 ∷ []) 38 → ⊥ }
{}

/// A packet's payload has one list of frames, and bytes begin with one frame at most (RFC 9000, section 12.4). The STREAM
/// frames among all frames are those of their own definition, and those that are written are some of them (section 19.8).
/// The type 1f is unknown, and no STREAM frame stands in an Initial packet.
pub fn frames()
    ensures list { (bytes : List ℕ) (fs gs : List QuicFrame) → AreQuicFrames bytes fs → AreQuicFrames bytes gs → fs ≡ gs }
    ensures one { (bytes x y : List ℕ) (f g : QuicFrame) → IsQuicFrame bytes f x → IsQuicFrame bytes g y → (f ≡ g) × (x ≡ y) }
    ensures stream { (bytes rest : List ℕ) (f : QuicFrame) (s : StreamFrame) → IsQuicFrame bytes f rest → stream_of f ≡ Some s → IsStreamFrame bytes s rest }
    ensures stream_back { (bytes rest : List ℕ) (s : StreamFrame) → IsStreamFrame bytes s rest → (f : QuicFrame) × IsQuicFrame bytes f rest × (stream_of f ≡ Some s) }
    ensures stream_written { (f : StreamFrame) (rest : List ℕ) → f.id < 2 ^ 62 → f.offset < 2 ^ 62 → length f.payload < 2 ^ 62 → IsStreamFrame (stream_frame f ++ rest) f rest }
    ensures stream_row { IsStreamFrame (15 ∷ 4 ∷ 3 ∷ 2 ∷ 104 ∷ 105 ∷ []) hi_run [] }
    ensures near_stream_row { (s : StreamFrame) (rest : List ℕ) → IsStreamFrame (15 ∷ 4 ∷ 3 ∷ 3 ∷ 104 ∷ 105 ∷ []) s rest → ⊥ }
    ensures near_row { (f : QuicFrame) (rest : List ℕ) → IsQuicFrame (31 ∷ []) f rest → ⊥ }
    ensures view_row { (stream_of hi_frame ≡ Some hi_run) × ((values : List Value) → stream_of (record { kind = 6; values = values }) ≡ None) }
    ensures initial_row { (values : List Value) → MayBeInitial (record { kind = 1; values = values }) }
    ensures near_initial_row { (f : QuicFrame) → 7 < f.kind → f.kind < 28 → MayBeInitial f → ⊥ }
    ensures initial_frames_row { AreInitialFrames initial_packet.frames × (AreInitialFrames forged_packet.frames → ⊥) }
{}

/// The first stream of each initiator and direction has an id from 0 to 3, and the second one from 4 to 7 (RFC 9000, section
/// 2.1, table 1).
pub fn streams()
    ensures first { (stream_id Client Bi 0 ≡ 0) × (stream_id Server Bi 0 ≡ 1) × (stream_id Client Uni 0 ≡ 2) × (stream_id Server Uni 0 ≡ 3) }
    ensures second { (stream_id Client Bi 1 ≡ 4) × (stream_id Server Bi 1 ≡ 5) × (stream_id Client Uni 1 ≡ 6) × (stream_id Server Uni 1 ≡ 7) }
{}

/// No spelling of a frame begins another's, bytes have one list of frames, and what is written is a frame (RFC 9114,
/// section 7.1).
pub fn http_frames()
    ensures prefix_free { (a b more : List ℕ) (f g : HttpFrame) → IsHttpFrame a f → IsHttpFrame b g → b ≡ a ++ more → (more ≡ []) × (f ≡ g) }
    ensures list { (bytes : List ℕ) (fs gs : List HttpFrame) → AreHttpFrames bytes fs → AreHttpFrames bytes gs → fs ≡ gs }
    ensures written { (f : HttpFrame) → f.kind < 2 ^ 62 → length f.payload < 2 ^ 62 → IsHttpFrame (http_frame f) f }
    ensures row { IsHttpFrame (1 ∷ 13 ∷ get_section) (headers_frame get_section) }
    ensures near_row { (f : HttpFrame) → IsHttpFrame (0 ∷ 3 ∷ 49 ∷ 50 ∷ []) f → ⊥ }
{}

/// The bytes of a section have one list of fields, what is written is a section, and the table is whole (RFC 9204, section
/// 4.5 and appendix A). The rows of integers are those of RFC 7541, appendix C.1.
pub fn sections()
    ensures one { (bytes : List ℕ) (fs gs : List Field) → IsSection bytes fs → IsSection bytes gs → fs ≡ gs }
    ensures written { (fs : List Field) → AllByRecursion (λ (f : Field). (length f.name < 2 ^ 63) × (length f.value < 2 ^ 63)) fs → IsSection (section_bytes fs) fs }
    ensures table { length static_table ≡ 99 }
    ensures row { IsSection get_section get_fields }
    ensures near_row { (fs : List Field) → IsSection (0 ∷ 0 ∷ 255 ∷ 36 ∷ []) fs → ⊥ }
    ensures integer_written { (lead bits n : ℕ) → n < 2 ^ 63 → IsPrefixed lead bits (prefixed lead bits n) n }
    ensures integer_rows { IsPrefixed 0 5 (10 ∷ []) 10 × IsPrefixed 0 5 (31 ∷ 154 ∷ 10 ∷ []) 1337 }
    ensures near_integer_row { IsPrefixed 0 5 (31 ∷ 154 ∷ 10 ∷ []) 1338 → ⊥ }
{}

/// A tag tells the sender, the space and the number. No Initial packet begins another, and a datagram that begins with
/// a short header has one packet at most (RFC 9000, section 12.2). What no one can take is skipped by its length. Bytes
/// of version 2 are no Initial packet, and bytes whose header and tag have unlike numbers no packet.
pub fn packets()
    ensures tags { (bytes : List ℕ) (s t : Side) (x y : Space) (m n : ℕ) → IsTag bytes s x m → IsTag bytes t y n → (s ≡ t) × (x ≡ y) × (m ≡ n) }
    ensures forms { (a x b y : List ℕ) (m n : ℕ) (c d : List ℕ) → IsInitialForm a m c → IsInitialForm b n d → a ++ x ≡ b ++ y → (m ≡ n) × (c ≡ d) × (x ≡ y) }
    ensures initials { (a x b y : List ℕ) (p q : Packet) → IsInitialPacket a p → IsInitialPacket b q → a ++ x ≡ b ++ y → (p ≡ q) × (x ≡ y) }
    ensures short_header { (k : ℕ) (p q : Packet) (bytes : List ℕ) → get_or bytes 0 0 < 128 → HasPacket k p bytes → HasPacket k q bytes → p ≡ q }
    ensures two { HasPacket 8 initial_packet two_packets × HasPacket 8 forged_packet two_packets }
    ensures two_only { (p : Packet) → HasPacket 8 p two_packets → (p ≡ initial_packet) ⊎ (p ≡ forged_packet) }
    ensures skipped_row { HasPacket 8 forged_packet (refused_part ++ forged) × ((p : Packet) → HasPacket 8 p (refused_part ++ forged) → p ≡ forged_packet) }
    ensures near_initial_row { (first : ℕ) (rest : List ℕ) (p : Packet) → IsInitialPacket (first ∷ 0 ∷ 0 ∷ 0 ∷ 2 ∷ rest) p → ⊥ }
    ensures row { HasPacket 8 forged_packet forged × ((p : Packet) → HasPacket 8 p forged → p ≡ forged_packet) }
    ensures near_row { (p : Packet) → HasPacket 8 p misnumbered → ⊥ }
{}

/// What is carried by two lists of datagrams is carried by one of them, and the other way. A datagram with a
/// stream's bytes at 3 and 4 and its end carries the byte at 4 and the end at 5, and nothing behind it.
pub fn carrying()
    ensures split { (k : ℕ) (xs ys : List (List ℕ)) (s : Side) (stream o b : ℕ) → Carries k (xs ++ ys) s stream o b → Carries k xs s stream o b ⊎ Carries k ys s stream o b }
    ensures left { (k : ℕ) (xs ys : List (List ℕ)) (s : Side) (stream o b : ℕ) → Carries k xs s stream o b → Carries k (xs ++ ys) s stream o b }
    ensures right { (k : ℕ) (xs ys : List (List ℕ)) (s : Side) (stream o b : ℕ) → Carries k ys s stream o b → Carries k (xs ++ ys) s stream o b }
    ensures end_split { (k : ℕ) (xs ys : List (List ℕ)) (s : Side) (stream n : ℕ) → CarriesEnd k (xs ++ ys) s stream n → CarriesEnd k xs s stream n ⊎ CarriesEnd k ys s stream n }
    ensures end_left { (k : ℕ) (xs ys : List (List ℕ)) (s : Side) (stream n : ℕ) → CarriesEnd k xs s stream n → CarriesEnd k (xs ++ ys) s stream n }
    ensures end_right { (k : ℕ) (xs ys : List (List ℕ)) (s : Side) (stream n : ℕ) → CarriesEnd k ys s stream n → CarriesEnd k (xs ++ ys) s stream n }
    ensures row { Carries 8 (carrying_hi ∷ []) Client 4 4 105 × CarriesEnd 8 (carrying_hi ∷ []) Client 4 5 }
    ensures near_row { ((b : ℕ) → Carries 8 (carrying_hi ∷ []) Client 4 5 b → ⊥) × ((n : ℕ) → CarriesEnd 8 (carrying_hi ∷ []) Client 4 n → n ≡ 5)
        × ((o b : ℕ) → Carries 8 (carrying_hi ∷ []) Server 4 o b → ⊥) }
{}

/// An ACK covers no number above its greatest, and its greatest where no range goes below 0. One that covers 8 to 10
/// and 4 to 5 covers no other number (RFC 9000, section 19.3.1).
pub fn acknowledged()
    ensures bound { (greatest : ℕ) (ranges : List ℕ) (n : ℕ) → InRanges greatest ranges n → n ≤ greatest }
    ensures greatest { (greatest : ℕ) (ranges : List ℕ) → AreRanges greatest ranges → InRanges greatest ranges greatest }
    ensures row { IsQuicFrame ack_bytes ack_frame [] }
    ensures covers { (n : ℕ) → ((8 ≤ n) × (n ≤ 10)) ⊎ ((4 ≤ n) × (n ≤ 5)) → Covers ack_frame n }
    ensures covers_only { (n : ℕ) → Covers ack_frame n → ((8 ≤ n) × (n ≤ 10)) ⊎ ((4 ≤ n) × (n ≤ 5)) }
    ensures ranges_row { AreRanges 10 (2 ∷ 1 ∷ 1 ∷ []) }
    ensures near_ranges_row { AreRanges 10 (2 ∷ 1 ∷ 6 ∷ []) → ⊥ }
{}
