ghost use Rattle.std.specs.Prelude.{◌≡◌, [], ◌∷◌, ◌++◌, length, reverse, codes, option_map, Bool, true, false};
ghost use Rattle.engine_types.specs.declared.ActionKind.{ActionKind};
ghost use Rattle.engine_types.specs.declared.ContainerState.{ContainerState};
ghost use Rattle.engine_types.specs.declared.Kind.{Kind};
ghost use Rattle.engine_types.specs.declared.Purpose.{Purpose};
ghost use Rattle.engine_types.specs.declared.Reply.{Reply};
ghost use Rattle.engine_types.specs.declared.Request.{Request};
ghost use Rattle.engine_types.specs.declared.SeenEnd.{SeenEnd};
ghost use Rattle.engine_types.specs.declared.SeenFault.{SeenFault};
ghost use Rattle.run_model.specs.Labels.{agrees};
ghost use Rattle.run_model.specs.Legal.{Look, Pause, decision};
ghost use Rattle.run_model.specs.Lines.{fault_text};
ghost use Rattle.run_laws.specs.OneService.{comes_up, creates_still, labels_of, name_in_use, nginx, no_image, seen_fresh, shop, upping, upping_by_two, web};
ghost use Rattle.run_model.specs.Told.{answered};
ghost use Rattle.run_laws.specs.OneWorld.{fresh, moves, up};
ghost use Rattle.run_laws.specs.FourServices as four;
ghost use Rattle.run_laws.specs.OtherRuns.{checked, comes_again, downing, goes_down, is_stopped, runs_late, runs_short, waiting};
ghost use Rattle.run_laws.specs.ThreeServices as three;
ghost use Rattle.run_laws.specs.TwoNetworks as two;
ghost use Rattle.run_laws.specs.TwoWorkers.{take_turns};
ghost use Rattle.run_laws.specs.Updates as updates;
ghost use Rattle.run_laws.specs.TwoWorlds as worlds;
ghost use Rattle.run_model.specs.Observation.{Asks, Ends, Strays, observed};
ghost use Rattle.run_model.specs.Plans.{basis_of, down_aim, planned, up_aim};
ghost use Rattle.run_model.specs.Exact.{IsExact};
ghost use Rattle.run_model.specs.Rolling.{run_actions};
ghost use Rattle.run_model.specs.Cuts.{Runs, creates, creates_over};
ghost use Rattle.run_model.specs.Runs.{IsLeftByAll, IsRun, IsWorldOfRun, limits_of, run_exchanges, run_fault, run_report, run_setup, run_status};

/// One service comes up on a fresh Engine: its container is created and started.
pub fn one_service_comes_up()
    ensures plan { (run_setup (upping shop) comes_up).actions ≡
        record { kind = ActionKind.CreateSlot 0; needs = [] }
        ∷ record { kind = ActionKind.StartSlot 0; needs = 0 ∷ [] } ∷ [] }
    ensures run { IsRun (upping shop) comes_up }
    ensures status { run_status (upping shop) comes_up ≡ 0 }
    ensures report { run_report (upping shop) comes_up ≡
        codes "container shop-web-1 created\ncontainer shop-web-1 started\n" }
{}

/// Where another container has the name, the create is refused and the start is never sent.
pub fn name_in_use_is_refused()
    ensures run { IsRun (upping shop) name_in_use }
    ensures status { run_status (upping shop) name_in_use ≡ 3 }
    ensures report { run_report (upping shop) name_in_use ≡ [] }
    ensures fault { option_map fault_text (run_fault (upping shop) name_in_use)
        ≡ Some (codes "compose: refused: create container shop-web-1: 409 conflict\n") }
{}

/// Where the image can't be pulled, the observation ends badly and nothing follows it.
pub fn missing_image_is_refused()
    ensures run { IsRun (upping shop) no_image }
    ensures status { run_status (upping shop) no_image ≡ 3 }
    ensures fault { option_map fault_text (run_fault (upping shop) no_image)
        ≡ Some (codes "compose: refused: pull nginx:1.25: 404 not found\n") }
{}

/// Where a healthy container falls ill before the other condition of a start is met, the start is never sent.
pub fn failed_condition_is_refused()
    ensures entries { length three.falls_ill ≡ 18 }
    ensures run { IsRun (upping three.shop) three.falls_ill }
    ensures status { run_status (upping three.shop) three.falls_ill ≡ 4 }
    ensures fault { option_map fault_text (run_fault (upping three.shop) three.falls_ill)
        ≡ Some (codes "compose: condition failed: shop-db-1 Healthy Running 0 Unhealthy\n") }
{}

/// The run of one service is that of a world which leads from a fresh Engine to one that holds exactly what is
/// declared, and it makes the container once.
pub fn one_service_is_exact()
    ensures world { IsWorldOfRun (upping shop) comes_up fresh moves up }
    ensures exact { (orphans : Bool) → IsExact shop up orphans }
    ensures once { creates shop web moves ≡ 1 }
{}

/// The plans of a service on two networks: on a fresh Engine, where its container was made on the first network
/// alone, where that container runs, where its image is another one by now, and of `down`.
pub fn plans_of_two_networks()
    ensures fresh { planned (basis_of two.shop (two.seeing [] [] (codes "sha")) (up_aim false)) ≡
        two.fresh_plan }
    ensures created { planned (basis_of two.shop
        (two.seeing (two.listed ContainerState.Created (codes "shop_a" ∷ []) ∷ []) two.both
        (codes "sha")) (up_aim false)) ≡ two.created_plan }
    ensures running { planned (basis_of two.shop
        (two.seeing (two.listed ContainerState.Running (codes "shop_a" ∷ []) ∷ []) two.both
        (codes "sha")) (up_aim false))
        ≡ two.acts (ActionKind.ConnectSlot 0 1) [] ∷ [] }
    ensures image { planned (basis_of two.shop
        (two.seeing (two.listed ContainerState.Running (codes "shop_a" ∷ []) ∷ []) two.both
        (codes "other")) (up_aim false)) ≡ two.image_plan }
    ensures down { planned (basis_of two.shop
        (two.seeing (two.listed ContainerState.Running (codes "shop_a" ∷ []) ∷ []) two.both
        (codes "sha")) (down_aim false true)) ≡ two.down_plan }
{}

/// A create that is lost isn't sent again; the next run finds the container, connects and starts it.
pub fn lost_create_is_found()
    ensures first_run { IsRun (upping two.shop) two.loses_create }
    ensures first_status { run_status (upping two.shop) two.loses_create ≡ 7 }
    ensures first_fault { option_map fault_text (run_fault (upping two.shop) two.loses_create)
        ≡ Some (codes "compose: lost: create container shop-web-1: Fault\n") }
    ensures run { IsRun (upping two.shop) two.connects }
    ensures status { run_status (upping two.shop) two.connects ≡ 0 }
    ensures report { run_report (upping two.shop) two.connects
        ≡ codes "container shop-web-1 connected to shop_b\ncontainer shop-web-1 started\n" }
{}

/// What observations of a service on two networks ask next, and how they end: where a network is there twice, is
/// another project's, or is external and missing; where the image is to be built; where it is always pulled.
pub fn observations_of_two_networks()
    ensures first { observed two.shop Purpose.Up [] ≡ Asks (Request.ListContainers (codes "shop")) }
    ensures networks { observed two.shop Purpose.Up
        (answered (Request.ListContainers (codes "shop")) (Reply.Containers []) ∷ []) ≡
        Asks Request.ListNetworks }
    ensures image { observed two.shop Purpose.Up (two.listings two.both) ≡
        Asks (Request.Image nginx) }
    ensures down { observed two.shop Purpose.Down (two.listings two.both) ≡
        Ends (SeenEnd.Good
        (record { containers = []; networks = two.both; volumes = []; images = [] })) }
    ensures twice { observed two.shop Purpose.Up
        (two.listings (two.network_row (codes "n2") (codes "a") ∷ two.network_row (codes "n1")
        (codes "a") ∷ []))
        ≡ Ends (SeenEnd.Bad (SeenFault.NetworkTwice (codes "shop_a") (codes "n1") (codes "n2"))) }
    ensures foreign { observed two.shop Purpose.Down
        (two.listings (record { id = codes "n1"; name = codes "shop_b"; labels = [] } ∷ []))
        ≡ Ends (SeenEnd.Bad (SeenFault.ForeignNetwork (codes "shop_b") (codes "n1"))) }
    ensures missing { observed two.with_external Purpose.Up (two.listings []) ≡
        Ends (SeenEnd.Bad (SeenFault.ExternalMissing Kind.Network (codes "shop_a"))) }
    ensures build { observed two.with_build Purpose.Up
        (two.listings [] ++ answered (Request.Image nginx)
        (Reply.Refused 404 (codes "not found")) ∷ [])
        ≡ Ends (SeenEnd.Bad (SeenFault.NeedsBuild (codes "web"))) }
    ensures pull { observed two.with_pull Purpose.Up (two.listings []) ≡ Asks (Request.Pull nginx) }
    ensures more { observed two.shop Purpose.Down
        (two.listings two.both ++ answered Request.ListVolumes (Reply.Volumes []) ∷ []) ≡ Strays }
{}

/// Workers that find no action: a poll goes to a slot at which no other worker looks, however often that slot was
/// polled; and where there is nothing to look at, a worker pauses while another's permit is out.
pub fn workers_find_other_work()
    ensures look { decision (run_setup (upping_by_two three.shop) three.one_stays_out)
        (reverse three.one_stays_out) 1 ≡ Look 1 }
    ensures pause { decision (run_setup (upping_by_two shop) creates_still)
        (reverse creates_still) 1 ≡ Pause }
{}

/// Two workers bring one service up: the exchanges of each are its own, with the observation's for worker 0, and both leave.
pub fn two_workers_take_turns()
    ensures run { IsRun (upping_by_two shop) take_turns }
    ensures left { IsLeftByAll (upping_by_two shop) take_turns }
    ensures status { run_status (upping_by_two shop) take_turns ≡ 0 }
    ensures report { run_report (upping_by_two shop) take_turns ≡
        codes "container shop-web-1 created\ncontainer shop-web-1 started\n" }
    ensures first { run_exchanges (upping_by_two shop) take_turns 0 ≡
        seen_fresh.exchanges ++ answered (Request.Create web.name web.spec)
        (Reply.Made (codes "c1")) ∷ [] }
    ensures second { run_exchanges (upping_by_two shop) take_turns 1 ≡
        answered (Request.Start (codes "c1")) Reply.Done ∷ [] }
{}

/// Four services with a network, a volume and conditions come up on a fresh Engine, with ten actions and two polls.
pub fn four_services_come_up()
    ensures plan { (run_setup (upping four.shop) four.comes_up).actions ≡ four.fresh_plan }
    ensures run { IsRun (upping four.shop) four.comes_up }
    ensures status { run_status (upping four.shop) four.comes_up ≡ 0 }
    ensures report { run_report (upping four.shop) four.comes_up ≡ four.report }
{}

/// A second run of `up` finds nothing to do, and `down` stops and removes the container.
pub fn second_run_and_down()
    ensures again { IsRun (upping shop) comes_again }
    ensures again_status { run_status (upping shop) comes_again ≡ 0 }
    ensures again_report { run_report (upping shop) comes_again ≡ [] }
    ensures down { IsRun (downing shop) goes_down }
    ensures down_status { run_status (downing shop) goes_down ≡ 0 }
    ensures down_report { run_report (downing shop) goes_down ≡
        codes "container shop-web-1 stopped\ncontainer shop-web-1 removed\n" }
{}

/// Runs that end early: at the deadline, which is a second after the first reading, when asked to stop, and for want of
/// memory.
pub fn runs_end_early()
    ensures limits { (waiting checked).limits ≡
        limits_of 1 (record { wait = true; wait_seconds = Some 1; stop_seconds = None }) 0 }
    ensures late { IsRun (waiting checked) runs_late }
    ensures late_status { run_status (waiting checked) runs_late ≡ 6 }
    ensures late_fault { option_map fault_text (run_fault (waiting checked) runs_late) ≡
        Some (codes "compose: late\n") }
    ensures stopped { IsRun (upping shop) is_stopped }
    ensures stopped_status { run_status (upping shop) is_stopped ≡ 5 }
    ensures stopped_fault { option_map fault_text (run_fault (upping shop) is_stopped) ≡
        Some (codes "compose: stopped\n") }
    ensures short { IsRun (upping shop) runs_short }
    ensures short_status { run_status (upping shop) runs_short ≡ 9 }
    ensures short_fault { option_map fault_text (run_fault (upping shop) runs_short) ≡
        Some (codes "compose: memory\n") }
{}

/// A create that is lost takes effect after its run, and the next run connects and starts that container: both
/// runs together make it once, and leave exactly what is declared.
pub fn lost_create_is_made_once()
    ensures runs { Runs two.shop (λ image. codes "sha") worlds.bare worlds.both_runs worlds.after }
    ensures once { creates_over two.shop two.web worlds.both_runs ≡ 1 }
    ensures exact { IsExact two.shop worlds.after true }
{}

/// A service that depends on another one with `restart` is stopped and started once that one is replaced.
pub fn needed_service_is_updated()
    ensures plan { (run_setup (upping updates.restarting) updates.restarts).actions ≡
        updates.restarting_plan }
    ensures run { IsRun (upping updates.restarting) updates.restarts }
    ensures status { run_status (upping updates.restarting) updates.restarts ≡ 0 }
    ensures report { run_report (upping updates.restarting) updates.restarts
        ≡ codes "container shop-db-1 stopped\ncontainer shop-db-1 removed\n"
        ++ codes "container shop-db-1 created\ncontainer shop-db-1 started\n"
        ++ codes "container shop-web-1 stopped\ncontainer shop-web-1 started\n" }
{}

/// A rolling update of three slots, one and two at a time, and all at once; `down` of a service on which one without
/// slots depends; and a container's hash, which is compared by its version.
pub fn plans_of_updates()
    ensures one { run_actions (updates.rolls (Some 1)) ≡
        updates.replacing (9 ∷ []) (10 ∷ []) (0 ∷ 6 ∷ []) (2 ∷ 7 ∷ []) (4 ∷ 8 ∷ []) }
    ensures two { run_actions (updates.rolls (Some 2)) ≡
        updates.replacing [] (9 ∷ []) (0 ∷ 6 ∷ []) (2 ∷ 7 ∷ []) (4 ∷ 8 ∷ []) }
    ensures all { run_actions (updates.rolls None) ≡
        updates.replacing [] [] (6 ∷ []) (7 ∷ []) (8 ∷ []) }
    ensures down { run_actions updates.downs ≡ updates.down_plan }
    ensures old { agrees (codes "shop") updates.rehashed (Some (codes "sha"))
        (labels_of (codes "web") (codes "abc")) (codes "sha") ContainerState.Running ≡ true }
    ensures stale { agrees (codes "shop") updates.rehashed (Some (codes "sha"))
        (updates.labels_of_two (codes "abc")) (codes "sha") ContainerState.Running ≡ false }
    ensures new { agrees (codes "shop") updates.rehashed (Some (codes "sha"))
        (updates.labels_of_two (codes "new")) (codes "sha") ContainerState.Running ≡ true }
{}
