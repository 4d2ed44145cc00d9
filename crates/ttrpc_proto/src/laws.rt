//! Laws that follow from the definitions alone: the meaning of bytes as each of the five messages. Each law is the
//! contract of a function that does nothing.
ghost use Rattle.std.specs.Prelude.{◌≡◌, ◌↔◌, ℕ, List, Some};
ghost use Rattle.ttrpc_wire.specs.Fold.{read_from};
ghost use Rattle.ttrpc_proto.specs.declared.messages.Any.{Any as AnAny};
ghost use Rattle.ttrpc_proto.specs.declared.messages.KeyValue.{KeyValue as AKeyValue};
ghost use Rattle.ttrpc_proto.specs.declared.messages.Request.{Request as ARequest};
ghost use Rattle.ttrpc_proto.specs.declared.messages.Response.{Response as AResponse};
ghost use Rattle.ttrpc_proto.specs.declared.messages.Status.{Status as AStatus};
ghost use Rattle.ttrpc_proto.specs.Messages.{empty_key_value, key_value_step, empty_any, any_step, empty_status, status_step, empty_request, request_step, empty_response, response_step};
ghost use Rattle.ttrpc_proto.specs.Meaning.{Means, OfKeyValue, OfAny, OfStatus, OfRequest, OfResponse};

/// States what bytes mean as a key and its value: the last text of each number.
pub fn key_value_meaning()
    ensures { (bytes : List ℕ) (m : AKeyValue)
        → (read_from key_value_step empty_key_value bytes ≡ Some m) ↔ Means OfKeyValue bytes m }
{}

/// States what bytes mean as a type's name and its bytes: the last value of each number.
pub fn any_meaning()
    ensures { (bytes : List ℕ) (m : AnAny)
        → (read_from any_step empty_any bytes ≡ Some m) ↔ Means OfAny bytes m }
{}

/// States what bytes mean as a status: the last code, the last text, and all details in order.
pub fn status_meaning()
    ensures { (bytes : List ℕ) (m : AStatus)
        → (read_from status_step empty_status bytes ≡ Some m) ↔ Means OfStatus bytes m }
{}

/// States what bytes mean as a request: the last of each scalar, text and bytes, and all metadata in order.
pub fn request_meaning()
    ensures { (bytes : List ℕ) (m : ARequest)
        → (read_from request_step empty_request bytes ≡ Some m) ↔ Means OfRequest bytes m }
{}

/// States what bytes mean as a response: its status and the last payload. The status is all values of its number
/// joined, and each of them reads by itself. The status is absent if there are no such values.
pub fn response_meaning()
    ensures { (bytes : List ℕ) (m : AResponse)
        → (read_from response_step empty_response bytes ≡ Some m) ↔ Means OfResponse bytes m }
{}
