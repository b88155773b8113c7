ghost use Rattle.std.specs.Prelude.{◌≡◌, ◌≤◌, ◌↔◌, ◌+◌, ◌-◌, ◌^◌, ◌++◌, ℕ, List, length, min, All, IsTrue};
ghost use Rattle.qh_generator.specs.Given.{and_id, and_ids};

use qh_base::ConnectionId;

/// A source of connection ids for one endpoint (RFC 9000, section 5.1). It may give an id again.
pub trait ConnectionIdGenerator {
    /// The ids that it has given, in order; past 2^64 - 1 of them, the later ones aren't told.
    ghost given: { Self → List (List ℕ) };

    /// How many bytes each of its ids has. No call changes it.
    ghost cid_len: { Self → ℕ };

    /// The ids that it takes for its own.
    ghost validates: { Self → List ℕ → Type 0 };

    /// Gives the next id.
    fn generate_cid(&mut self) -> ConnectionId
        ensures given { given self.new ≡ and_id (given self.old) result }
        ensures size { length result ≡ cid_len self.old }
        ensures same_len { cid_len self.new ≡ cid_len self.old }
        ensures own { validates self.new result }
        ensures kept { (id : List ℕ) → validates self.old id → validates self.new id };

    /// How many bytes each of its ids has.
    fn cid_len(&self) -> usize
        ensures value { result ≡ cid_len self.now }
        ensures short { result ≤ 20 };

    /// Whether it takes the id for its own. It may take ids that it never gave, and takes each that it gave.
    fn validate(&self, id: &ConnectionId) -> bool
        ensures value { IsTrue result ↔ validates self.now id.now }
        ensures own { All (validates self.now) (given self.now) };
}

/// What a source tells of the ids that it has given, up to 2^64 - 1 of them: they stand behind those that it gave before, and none is left
/// out. It tells no more than that.
pub fn told_ids()
    ensures told { (given ids : List (List ℕ)) → length given + length ids ≤ 2 ^ 64 - 1 → and_ids given ids ≡ given ++ ids }
    ensures count { (given ids : List (List ℕ)) → length given ≤ 2 ^ 64 - 1 → length (and_ids given ids) ≡ min (length given + length ids) (2 ^ 64 - 1) }
    ensures more { (given ids more : List (List ℕ)) → and_ids given (ids ++ more) ≡ and_ids (and_ids given ids) more }
{}
