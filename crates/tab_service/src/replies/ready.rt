//! The replies that stand ready, since they take no memory: to bytes that are no message of HTTP/1.1 (RFC 9112), and that
//! no memory was found.
ghost use Rattle.std.specs.Prelude.{◌≡◌};
ghost use Rattle.std.specs.Option.{option_copied};
ghost use Rattle.tab_service.specs.Causes as cause;
ghost use Rattle.tab_service.specs.Replies.{error_text, memory_fault};
ghost use Rattle.tab_service.specs.Refusals.{http_fault};

use super::causes::out_of_memory;
use tab_http::HttpRefused;

const NOT_WHOLE: &str =
    "HTTP/1.1 400 Bad Request\r\nContent-Length: 118\r\nContent-Type: application/json\r\nx-ms-version: 2019-02-02\r\n\r\n{\"odata.error\":{\"code\":\"InvalidHttp\",\"message\":{\"lang\":\"en-US\",\"value\":\"The message is not one whole HTTP request.\"}}}";

const HEAD_TOO_LONG: &str =
    "HTTP/1.1 400 Bad Request\r\nContent-Length: 112\r\nContent-Type: application/json\r\nx-ms-version: 2019-02-02\r\n\r\n{\"odata.error\":{\"code\":\"InvalidHttp\",\"message\":{\"lang\":\"en-US\",\"value\":\"The head is longer than 32768 bytes.\"}}}";

const NO_LENGTH: &str =
    "HTTP/1.1 411 Length Required\r\nContent-Length: 118\r\nContent-Type: application/json\r\nx-ms-version: 2019-02-02\r\n\r\n{\"odata.error\":{\"code\":\"MissingContentLengthHeader\",\"message\":{\"lang\":\"en-US\",\"value\":\"A Content-Length is needed.\"}}}";

const BODY_TOO_LONG: &str =
    "HTTP/1.1 413 Payload Too Large\r\nContent-Length: 122\r\nContent-Type: application/json\r\nx-ms-version: 2019-02-02\r\n\r\n{\"odata.error\":{\"code\":\"RequestBodyTooLarge\",\"message\":{\"lang\":\"en-US\",\"value\":\"The body is longer than 4194304 bytes.\"}}}";

macro_rules! memory_reply {
    ($status:literal, $code:literal, $text:literal) => {
        concat!(
            "HTTP/1.1 ",
            $status,
            " Insufficient Storage\r\nContent-Length: 96\r\nContent-Type: application/json\r\nx-ms-version: 2019-02-02\r\n\r\n{\"odata.error\":{\"code\":\"",
            $code,
            "\",\"message\":{\"lang\":\"en-US\",\"value\":\"",
            $text,
            "\"}}}"
        )
    };
}

/// The reply to any request for which no memory was found.
const MEMORY_REPLY: &str = out_of_memory!(memory_reply);

/// The reply to bytes that are no message, where one is due. It takes no memory.
#[tactic(auto, unfolding(crate::specs::Refusals::http_fault))]
pub fn http_fault(refused: &HttpRefused) -> Option<&'static [u8]>
    ensures { option_copied result ≡ http_fault refused.now }
{
    match refused {
        HttpRefused::EndInside | HttpRefused::Malformed => Some(not_whole()),
        HttpRefused::HeadTooLong => Some(head_too_long()),
        HttpRefused::NoLength => Some(no_length()),
        HttpRefused::BodyTooLong => Some(body_too_long()),
        HttpRefused::EndBetween | HttpRefused::ReadFault | HttpRefused::Memory => None,
    }
}

fn not_whole() -> &'static [u8]
    ensures { result.now ≡ error_text cause.not_whole }
{
    NOT_WHOLE.as_bytes()
}

fn head_too_long() -> &'static [u8]
    ensures { result.now ≡ error_text cause.head_too_long }
{
    HEAD_TOO_LONG.as_bytes()
}

fn no_length() -> &'static [u8]
    ensures { result.now ≡ error_text cause.no_length }
{
    NO_LENGTH.as_bytes()
}

fn body_too_long() -> &'static [u8]
    ensures { result.now ≡ error_text cause.body_too_long }
{
    BODY_TOO_LONG.as_bytes()
}

/// The reply that needs no memory, for where none was found.
pub fn memory_reply() -> &'static [u8]
    ensures { result.now ≡ memory_fault }
{
    MEMORY_REPLY.as_bytes()
}
