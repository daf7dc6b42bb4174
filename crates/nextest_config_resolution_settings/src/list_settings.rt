// The settings with which the tests of a binary are listed.
ghost use Rattle.std.specs.Prelude.{◌≡◌, None, Some};
ghost use Rattle.std.specs.Option.{option_copied};

use crate::test_settings::both;
use nextest_config_resolution_scripts::WrapperScriptConfig;
use std::alloc::AllocError;

/// The settings with which the tests of a binary are listed. With each stands what is kept of where
/// it is taken from.
#[derive(Drop)]
pub struct ListSettings<'p, Source = ()> {
    /// `list-wrapper`: the script that the command is handed to, if there is one.
    pub list_wrapper: (Option<&'p WrapperScriptConfig>, Source),
}

impl<'p, Source: Copy> Clone for ListSettings<'p, Source> {
    ghost use Rattle.std.specs.Prelude.{◌≡◌};

    ghost is_clone = { λ original copy. copy ≡ original };

    fn clone(&self) -> Result<ListSettings<'p, Source>, AllocError> {
        Ok(ListSettings {
            list_wrapper: both(&self.list_wrapper),
        })
    }
}

impl<'p> ListSettings<'p, ()> {
    /// Settings that set nothing, to be made up by hand.
    pub fn debug_empty() -> ListSettings<'p, ()>
        ensures { result.list_wrapper.0 ≡ None }
    {
        ListSettings {
            list_wrapper: (None, ()),
        }
    }

    /// Sets the script that the command is handed to.
    pub fn debug_set_list_wrapper(&mut self, wrapper: &'p WrapperScriptConfig)
        ensures { option_copied self.new.list_wrapper.0 ≡ Some wrapper.now }
    {
        self.list_wrapper = (Some(wrapper), ());
    }
}

impl<'p, Source> ListSettings<'p, Source> {
    /// The script that the command is handed to, if there is one.
    pub fn list_wrapper(&self) -> Option<&'p WrapperScriptConfig>
        ensures { result ≡ self.now.list_wrapper.0 }
    {
        self.list_wrapper.0
    }
}
