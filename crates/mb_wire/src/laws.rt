//! Theorems about the PDUs of all Modbus requests and responses: decoding and encoding are inverse,
//! except that spare bits are set to 0.
ghost use Rattle.std.specs.Prelude.{◌≡◌, ◌↔◌, ℕ, List, Ok};
ghost use Rattle.mb_wire.specs.Bytes.{AreBytes};
ghost use Rattle.mb_wire.specs.Requests.{Query, IsLawfulQuery, SpellsRequest, query_bytes};
ghost use Rattle.mb_wire.specs.RequestFaults.{query_in, request_cleared};
ghost use Rattle.mb_wire.specs.Replies.{Answer, AnswersQuery, SpellsReply, answer_bytes, answer_in};
ghost use Rattle.mb_wire.specs.Replies.{reply_cleared};

/// Theorem: decoding and encoding requests are inverse. Decoding an encoded valid request returns
/// the request. Encoding a decoded request gives its PDU with the spare bits set to 0.
pub fn one_request()
    ensures both { (pdu : List ℕ) (query : Query) → AreBytes pdu →
        SpellsRequest pdu query ↔ (query_in pdu ≡ Ok query) }
    ensures reads_back { (query : Query) → IsLawfulQuery query → AreBytes (query_bytes query) →
        query_in (query_bytes query) ≡ Ok query }
    ensures writes_back { (pdu : List ℕ) (query : Query) → AreBytes pdu → query_in pdu ≡ Ok query →
        query_bytes query ≡ request_cleared pdu }
{}

/// Theorem: decoding and encoding responses are inverse. Decoding an encoded response to a request
/// returns the response. Encoding a decoded response gives its PDU with the spare bits set to 0.
pub fn one_reply()
    ensures both { (query : Query) (pdu : List ℕ) (answer : Answer) → AreBytes pdu →
        SpellsReply query pdu answer ↔ (answer_in query pdu ≡ Ok answer) }
    ensures reads_back { (query : Query) (answer : Answer) → AnswersQuery query answer →
        answer_in query (answer_bytes query answer) ≡ Ok answer }
    ensures writes_back { (query : Query) (pdu : List ℕ) (answer : Answer) → AreBytes pdu →
        answer_in query pdu ≡ Ok answer → answer_bytes query answer ≡ reply_cleared query pdu }
{}
