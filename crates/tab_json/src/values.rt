//! The type that is named beside the JSON value of a property (OData 3.0, JSON Format, "odata.type Annotation").
ghost use Rattle.std.specs.Prelude.{◌≡◌, option_map};
ghost use Rattle.tab_json.specs.Entities.{annotated_type};

use tab_edm::Value;

#[tactic(auto, unfolding(crate::specs::Entities::annotated_type))]
pub(crate) fn annotated_type(value: &Value) -> Option<&'static str>
    ensures { option_map (λ kind. kind.now) result ≡ annotated_type value.now }
{
    match value {
        Value::Text(_) | Value::Flag(_) | Value::Int32(_) => None,
        Value::Int64(_) => Some("Edm.Int64"),
        Value::Moment(_) => Some("Edm.DateTime"),
        Value::Guid(_) => Some("Edm.Guid"),
        Value::Bytes(_) => Some("Edm.Binary"),
    }
}
