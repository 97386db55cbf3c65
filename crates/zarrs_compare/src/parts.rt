//! The parts of metadata, compared as data.
ghost use Rattle.std.specs.Prelude.{◌≡◌, ◌==◌, Bool, bytes_eq};
ghost use Rattle.serde_json.specs.View.{view};
ghost use Rattle.zarrs_compare.specs.StepsOfSame.{same_codec, same_data, same_data_type, same_entry, same_extension, same_list, same_members, same_option, same_order, same_separator};

use crate::values::is_same_value;
use serde_json::Value;
use zarrs_form::{
    AdditionalFieldV3, AdditionalFieldsV3, ArrayMetadataV2Order, ChunkKeySeparator,
    DataTypeMetadataV2, Json, List, MetadataV2, MetadataV3, Object, Text,
};

/// What is compared as data.
pub(crate) trait Same {
    /// The test whether two are the same.
    ghost same: { Self → Self → Bool };

    /// Whether two are the same.
    fn is_same(&self, other: &Self) -> bool
        ensures { result ≡ same self.now other.now };
}

/// Whether two slices have the same items in one order.
fn is_same_slice<T: Same>(first: &[T], second: &[T]) -> bool
    ensures { result ≡ same_list T.same first.now second.now }
{
    let mut others = second.iter();
    for item in first {
        let Some(other) = others.next() else {
            return false;
        };
        if !item.is_same(other) {
            return false;
        }
    }
    others.next().is_none()
}

impl Same for u64 {
    ghost same = { ◌==◌ };

    fn is_same(&self, other: &u64) -> bool {
        self == other
    }
}

impl Same for Text {
    ghost same = { bytes_eq };

    fn is_same(&self, other: &Text) -> bool {
        self.as_str() == other.as_str()
    }
}

impl Same for Value {
    ghost same = { λ v w. same_data (view v) (view w) };

    fn is_same(&self, other: &Value) -> bool {
        is_same_value(self, other)
    }
}

impl Same for Json {
    ghost same = { same_data };

    fn is_same(&self, other: &Json) -> bool {
        is_same_value(self.as_value(), other.as_value())
    }
}

impl Same for AdditionalFieldV3 {
    ghost same = { same_data };

    fn is_same(&self, other: &AdditionalFieldV3) -> bool {
        is_same_value(self.as_value(), other.as_value())
    }
}

/// A member: its name and its value.
impl<T: Same> Same for (String, T) {
    ghost same = { same_entry T.same };

    fn is_same(&self, other: &(String, T)) -> bool {
        self.0.as_str() == other.0.as_str() && self.1.is_same(&other.1)
    }
}

impl Same for Object {
    ghost same = { same_members };

    fn is_same(&self, other: &Object) -> bool {
        is_same_slice(self.as_slice(), other.as_slice())
    }
}

impl Same for AdditionalFieldsV3 {
    ghost same = { same_members };

    fn is_same(&self, other: &AdditionalFieldsV3) -> bool {
        is_same_slice(self.as_slice(), other.as_slice())
    }
}

impl<T: Same> Same for List<T> {
    ghost same = { same_list T.same };

    fn is_same(&self, other: &List<T>) -> bool {
        is_same_slice(self.as_slice(), other.as_slice())
    }
}

impl<T: Same> Same for Option<T> {
    ghost same = { same_option T.same };

    fn is_same(&self, other: &Option<T>) -> bool {
        match self {
            Some(value) => match other {
                Some(other) => value.is_same(other),
                None => false,
            },
            None => other.is_none(),
        }
    }
}

impl Same for MetadataV3 {
    ghost same = { same_extension };

    fn is_same(&self, other: &MetadataV3) -> bool {
        self.name.is_same(&other.name)
            && self.configuration.is_same(&other.configuration)
            && self.must_understand == other.must_understand
    }
}

impl Same for MetadataV2 {
    ghost same = { same_codec };

    fn is_same(&self, other: &MetadataV2) -> bool {
        self.id.is_same(&other.id) && self.configuration.is_same(&other.configuration)
    }
}

impl Same for DataTypeMetadataV2 {
    ghost same = { same_data_type };

    fn is_same(&self, other: &DataTypeMetadataV2) -> bool {
        match self {
            DataTypeMetadataV2::Simple(name) => match other {
                DataTypeMetadataV2::Simple(other) => name.is_same(other),
                DataTypeMetadataV2::Structured(_) => false,
            },
            DataTypeMetadataV2::Structured(fields) => match other {
                DataTypeMetadataV2::Simple(_) => false,
                DataTypeMetadataV2::Structured(others) => fields.is_same(others),
            },
        }
    }
}

impl Same for ArrayMetadataV2Order {
    ghost same = { same_order };

    fn is_same(&self, other: &ArrayMetadataV2Order) -> bool {
        match self {
            ArrayMetadataV2Order::C => matches!(other, ArrayMetadataV2Order::C),
            ArrayMetadataV2Order::F => matches!(other, ArrayMetadataV2Order::F),
        }
    }
}

impl Same for ChunkKeySeparator {
    ghost same = { same_separator };

    fn is_same(&self, other: &ChunkKeySeparator) -> bool {
        match self {
            ChunkKeySeparator::Dot => matches!(other, ChunkKeySeparator::Dot),
            ChunkKeySeparator::Slash => matches!(other, ChunkKeySeparator::Slash),
        }
    }
}
