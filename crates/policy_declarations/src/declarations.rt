//! The declarations so far, looked up by name.

ghost use Rattle.std.specs.Prelude.{◌≡◌, ◌<◌, ◌≤◌, length, None, IfOk};
ghost use Rattle.policy_declarations.specs.Declarations.{no_declarations, tenant_index, policy_index, IsNew, with_declaration};

use crate::declaration::{Declaration, NamedPolicy, Tenant};
use mrpc_table::{Memory, Sequence};
use std::alloc::Global;
use std::collections::BTreeMap;
use std::marker::Model;

/// Tenants and policies in the order of their declarations. A policy is looked up in an ordered map, a tenant by linear
/// search, since there are at most 16.
pub struct Declarations {
    tenants: Sequence<Tenant>,
    policies: Sequence<NamedPolicy>,
    // The index of each policy, by its name.
    places: BTreeMap<Vec<u8>, usize>,
}

// Written by hand, so that a drop is one call, not one call per field.
impl Drop for Declarations {
    fn drop(self) {
        let Declarations {
            tenants: _tenants,
            policies: _policies,
            places: _places,
        } = self;
    }
}

impl Model for Declarations {
    ghost use Rattle.policy_declarations.specs.Declarations.{Declared};
    ghost use Rattle.std.specs.Prelude.{◌≤◌, length};
    ghost use Rattle.policy_declarations.specs.NameIndexes.{IsNameIndex};
    ghost use Rattle.policy_declarations.specs.declared.limits.TheConstants.{MAX_TENANTS};

    ghost Value = { Declared };

    ghost view = { λ d. record { tenants = d.tenants; policies = d.policies } };

    ghost invariant = { λ d. IsNameIndex d.places d.policies × (length d.tenants ≤ MAX_TENANTS) };
}

impl Declarations {
    /// No declarations. It allocates no memory.
    pub fn new(alloc: Global) -> Declarations
        ensures { result ≡ no_declarations }
    {
        Declarations {
            tenants: Sequence::new(alloc),
            policies: Sequence::new(alloc),
            places: BTreeMap::new(alloc),
        }
    }

    /// The tenants, in the order of their declarations.
    pub fn tenants(&self) -> &[Tenant]
        ensures tenants { result.now ≡ self.now.tenants }
        ensures few { length result.now ≤ 16 }
    {
        self.tenants.as_slice()
    }

    /// The policies, in the order of their declarations.
    pub fn policies(&self) -> &[NamedPolicy]
        ensures { result.now ≡ self.now.policies }
    {
        self.policies.as_slice()
    }

    /// Returns the index of the tenant with a name, counted from 0; `None` if there is no such tenant.
    pub fn tenant(&self, name: &[u8]) -> Option<usize>
        ensures { result ≡ tenant_index self.now name.now }
    {
        self.tenants
            .as_slice()
            .iter()
            .position(|tenant| tenant.name.as_slice() == name)
    }

    /// Returns the index of the policy with a name, counted from 0; `None` if there is no such policy. The time is
    /// logarithmic in the number of policies.
    pub fn policy(&self, name: &[u8]) -> Option<usize>
        ensures { result ≡ policy_index self.now name.now }
    {
        self.places.get(name).copied()
    }

    /// Appends a declaration. Its name is free among tenants or policies, and there are fewer than 16 tenants if it is
    /// one.
    pub fn with(self, alloc: Global, item: Declaration) -> Result<Declarations, Memory>
        requires { IsNew self item }
        ensures { IfOk result (λ d. d ≡ with_declaration self item) }
    {
        match item {
            Declaration::Tenant(tenant) => self.with_tenant(tenant),
            Declaration::Policy(policy) => self.with_policy(alloc, policy),
        }
    }

    fn with_tenant(self, tenant: Tenant) -> Result<Declarations, Memory>
        requires { length self.tenants < 16 }
        ensures { IfOk result (λ d. d ≡ with_declaration self (Declaration.Tenant tenant)) }
    {
        let Declarations {
            mut tenants,
            policies,
            places,
        } = self;
        tenants.push(tenant)?;
        Ok(Declarations {
            tenants,
            policies,
            places,
        })
    }

    fn with_policy(self, alloc: Global, policy: NamedPolicy) -> Result<Declarations, Memory>
        requires { policy_index self policy.name ≡ None }
        ensures { IfOk result (λ d. d ≡ with_declaration self (Declaration.Policy policy)) }
    {
        let Declarations {
            tenants,
            mut policies,
            mut places,
        } = self;
        let name = Vec::from_slice(alloc, policy.name.as_slice())?;
        places.insert(name, policies.len())?;
        policies.push(policy)?;
        Ok(Declarations {
            tenants,
            policies,
            places,
        })
    }
}
