//! Whether two sites are the same, or differ in their originated prefixes and costs alone.

ghost use Rattle.std.specs.Prelude.{◌≡◌, ◌↔◌, IsTrue};
ghost use Rattle.net_conf.specs.Facts.{same_facts};

use crate::site::SiteConf;

impl SiteConf {
    /// Whether both are the same.
    pub fn is_same(&self, other: &SiteConf) -> bool
        ensures { IsTrue result ↔ (self.now ≡ other.now) }
    {
        if !self.has_same_facts(other) {
            return false;
        }
        if self.origins == other.origins {
            self.costs.is_same(&other.costs)
        } else {
            false
        }
    }

    /// Whether all but the originated prefixes and the costs is the same in both: the address, the AS, the CLUSTER_ID,
    /// whether there is a client, how MULTI_EXIT_DISC is compared, and the sessions with what is set for each.
    pub fn has_same_facts(&self, other: &SiteConf) -> bool
        ensures { result ≡ same_facts self.now other.now }
    {
        self.me == other.me
            && self.asn == other.asn
            && self.cluster == other.cluster
            && self.reflector == other.reflector
            && self.med_always == other.med_always
            && self.sessions == other.sessions
    }
}
